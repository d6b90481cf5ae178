use std::fmt;

// What a call answers.
#[derive(Clone, Copy, PartialEq, Eq, Debug)]
pub enum Answer {
    Done(bool),
    Value { value: Option<u16>, comparisons: u8 },
    Pairs(u16),
}

impl fmt::Display for Answer {
    fn fmt<W: fmt::Write>(&self, f: &mut fmt::Formatter<W>) -> fmt::Result {
        match self {
            Answer::Done(done) => write!(f, "{done}"),
            Answer::Value {
                value: Some(value),
                ..
            } => write!(f, "{value}"),
            Answer::Value { value: None, .. } => write!(f, "none"),
            Answer::Pairs(count) => write!(f, "{count}"),
        }
    }
}
