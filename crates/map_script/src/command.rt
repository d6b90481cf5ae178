use decimal::parse_digits;

// What a line asks for.
#[derive(Clone, Copy, PartialEq, Eq, Debug)]
pub enum Command {
    Enter(u64, u16),
    Remove(u64),
    LookUp(u64),
    Count,
}

// `E key value`, `R key`, `L key` or `C`, with one space between the words.
pub fn read(line: &str) -> Option<Command> {
    if line == "C" {
        return Some(Command::Count);
    }
    let (letter, rest) = line.split_once(' ')?;
    match letter {
        "E" => {
            let (key, value) = rest.split_once(' ')?;
            Some(Command::Enter(parse_digits(key)?, parse_digits(value)?))
        }
        "R" => Some(Command::Remove(parse_digits(rest)?)),
        "L" => Some(Command::LookUp(parse_digits(rest)?)),
        _ => None,
    }
}
