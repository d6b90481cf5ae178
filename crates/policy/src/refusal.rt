ghost use Rattle.std.specs.Prelude.{◌≡◌, Some};
ghost use Rattle.policy.specs.Refusals.{number_of, words_of};

use std::error::Error;
use std::fmt;

// Why no policy is made; each refusal has its number.
#[derive(Clone, Copy, PartialEq, Eq, Debug)]
pub enum Refusal {
    // a tax above 99 per cent
    Tax = 8,
}

impl Refusal {
    // The number by which a refusal is known.
    pub fn number(self) -> u8
        ensures { result ≡ number_of self }
    {
        self as u8
    }
}

// As the refusals of `page_store` do: a crate that both used for this line would be no plainer.
impl fmt::Display for Refusal {
    ghost output = { λ e. Some (words_of e) };

    fn fmt<W: fmt::Write>(&self, f: &mut fmt::Formatter<W>) -> fmt::Result {
        write!(f, "refused by {}", self.number())
    }
}

impl Error for Refusal {}
