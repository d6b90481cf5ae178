ghost use Rattle.std.specs.Prelude.{◌≡◌};
ghost use Rattle.policy.specs.Lru.{lru_choice};
ghost use Rattle.choices.specs.Answers.{among_rows, by_min_funding, key_answer};

use crate::answer::{Answer, Answered};
use crate::fault::Fault;
use page_key::page_key;
use policy::{Lru, MinFunding, Policy, Row, Rows, choose_by};

pub fn key(bytes: &[u8]) -> Answer
    ensures { result ≡ key_answer bytes.now }
{
    Answer::Key(page_key(bytes))
}

pub fn by_lru(rows: [Row; 8]) -> Answered
    ensures { result ≡ among_rows lru_choice rows }
{
    among_rows(&Lru, rows)
}

pub fn by_min_funding(tax: u32, rows: [Row; 8]) -> Answered
    ensures { result ≡ by_min_funding tax rows }
{
    among_rows(&MinFunding::try_from(tax)?, rows)
}

fn among_rows<P: Policy>(policy: &P, rows: [Row; 8]) -> Answered
    ensures { result ≡ among_rows (P.Policy.choice policy.now) rows }
{
    let rows = Rows::new(rows).ok_or(Fault::Rows)?;
    Ok(Answer::Chosen(choose_by(policy, &rows)))
}
