ghost use Rattle.std.specs.Prelude.{Some};
ghost use Rattle.choices.specs.Printed.{answer_words};

use crate::fault::Fault;
use std::fmt;

// What is written for a line that asks for something.
#[derive(Clone, Copy, PartialEq, Eq, Debug)]
pub enum Answer {
    Key(u64),
    // the row that is chosen, or nobody
    Chosen(Option<usize>),
}

pub type Answered = Result<Answer, Fault>;

impl fmt::Display for Answer {
    ghost output = { λ a. Some (answer_words a) };

    fn fmt<W: fmt::Write>(&self, f: &mut fmt::Formatter<W>) -> fmt::Result {
        match self {
            Answer::Key(key) => write!(f, "{key:016x}"),
            Answer::Chosen(Some(row)) => write!(f, "{row}"),
            Answer::Chosen(None) => write!(f, "nobody"),
        }
    }
}
