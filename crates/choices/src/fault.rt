ghost use Rattle.std.specs.Prelude.{◌≡◌, Some};
ghost use Rattle.choices.specs.declared.fault.Fault.TheVariants.{Refused};
ghost use Rattle.choices.specs.Printed.{fault_words};

use policy::Refusal;
use std::error::Error;
use std::fmt;

// Why a line has no answer.
#[derive(Clone, Copy, PartialEq, Eq, Debug)]
pub enum Fault {
    BadLine,
    // a row is out of its limits
    Rows,
    Refused(Refusal),
}

impl fmt::Display for Fault {
    ghost output = { λ e. Some (fault_words e) };

    fn fmt<W: fmt::Write>(&self, f: &mut fmt::Formatter<W>) -> fmt::Result {
        match self {
            Fault::BadLine => write!(f, "? bad line"),
            Fault::Rows => write!(f, "rows refused"),
            Fault::Refused(refusal) => write!(f, "{refusal}"),
        }
    }
}

impl Error for Fault {}

impl From<Refusal> for Fault {
    ghost from_gives = { λ e fault. fault ≡ Refused e };

    fn from(e: Refusal) -> Fault {
        Fault::Refused(e)
    }
}
