ghost use Rattle.std.specs.Prelude.{◌≡◌};
ghost use Rattle.std.specs.Char.{is_ascii_hexdigit};
ghost use Rattle.std.specs.List.{list_all};

use crate::answer::Answered;
use crate::choose;
use crate::fault::Fault;
use decimal::parse_digits;
use policy::Row;
use std::alloc::{AllocError, Global};

// The answer to a line: a letter, and after a space what it is asked of. The error outside is that memory ran out.
pub fn answer(heap: Global, line: &str) -> Result<Answered, AllocError> {
    Ok(match line.split_once(' ') {
        Some(("K", digits)) => key(heap, digits)?,
        Some(("M", rest)) => min_funding(rest),
        Some(("L", rest)) => lru(rest),
        None if line == "K" => Ok(choose::key(&[])),
        _ => Err(Fault::BadLine),
    })
}

fn key(heap: Global, digits: &str) -> Result<Answered, AllocError> {
    if digits.is_empty() || digits.len() % 2 != 0 || !are_hex_digits(digits) {
        return Ok(Err(Fault::BadLine));
    }
    let mut bytes = vec![in heap; 0u8; digits.len() / 2]?;
    Ok(match hex::decode_to_slice(digits, &mut bytes) {
        Ok(()) => Ok(choose::key(bytes.as_slice())),
        Err(_) => Err(Fault::BadLine),
    })
}

// Asked before there is memory for the bytes, since a bad line needs none. The fold is compiled to vector instructions, as that of `decimal` is.
fn are_hex_digits(text: &str) -> bool
    ensures { result ≡ list_all is_ascii_hexdigit text.now }
{
    text.bytes()
        .fold(true, |all, byte| all & byte.is_ascii_hexdigit())
}

fn lru(rest: &str) -> Answered {
    choose::by_lru(rows(rest).ok_or(Fault::BadLine)?)
}

fn min_funding(rest: &str) -> Answered {
    let (tax, rows) = taxed_rows(rest).ok_or(Fault::BadLine)?;
    choose::by_min_funding(tax, rows)
}

fn taxed_rows(text: &str) -> Option<(u32, [Row; 8])> {
    let (tax, rest) = text.split_once(' ')?;
    Some((parse_digits(tax)?, rows(rest)?))
}

fn rows(text: &str) -> Option<[Row; 8]> {
    let mut words = text.split(' ');
    let mut rows = [Row::absent(); 8];
    for place in &mut rows {
        *place = row(words.next()?)?;
    }
    words.next().is_none().then_some(rows)
}

fn row(word: &str) -> Option<Row> {
    let mut fields = word.split(',');
    let row = Row {
        offered: flag(fields.next()?)?,
        resident: parse_digits(fields.next()?)?,
        active: parse_digits(fields.next()?)?,
        minimum: parse_digits(fields.next()?)?,
        shares: parse_digits(fields.next()?)?,
        rank: rank(fields.next()?)?,
    };
    fields.next().is_none().then_some(row)
}

// Not `parse`, which reads `true` and `false`.
fn flag(text: &str) -> Option<bool> {
    match text {
        "0" => Some(false),
        "1" => Some(true),
        _ => None,
    }
}

// A rank, or `-` where there is none.
fn rank(text: &str) -> Option<Option<u16>> {
    match text {
        "-" => Some(None),
        _ => parse_digits(text).map(Some),
    }
}
