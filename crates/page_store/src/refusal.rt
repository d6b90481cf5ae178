ghost use Rattle.std.specs.Prelude.{◌≡◌};
ghost use Rattle.page_store.specs.Refusals.{number_of, told};

use std::error::Error;
use std::fmt;

// Why a store, or the check before one is made, refuses; each case with its number.
#[derive(Clone, Copy, PartialEq, Eq, Debug)]
pub enum Refusal {
    // a page size other than 64, 256, 1,024 and 4,096
    PageSize = 1,
    // a store's size outside its limits
    StoreSize = 2,
    // lent memory, or a page buffer, of the wrong length
    WrongLength = 3,
    // a slot number not below the store's size
    NoSuchSlot = 30,
    // the slot is empty
    EmptySlot = 31,
}

impl Refusal {
    // The number by which a refusal is known.
    pub fn number(self) -> u8
        ensures { result ≡ number_of self }
    {
        self as u8
    }
}

impl fmt::Display for Refusal {
    ghost output = { told };

    fn fmt<W: fmt::Write>(&self, f: &mut fmt::Formatter<W>) -> fmt::Result {
        write!(f, "refused by {}", self.number())
    }
}

impl Error for Refusal {}
