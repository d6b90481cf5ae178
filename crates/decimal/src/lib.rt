#![tactic(auto)]

ghost use Rattle.std.specs.Prelude.{◌≡◌, ℕ, List, Option};
ghost use Rattle.decimal.specs.Digits.{are_digits, ReadsDigits, ReadsNumber};

use std::str::FromStr;

// The value that a text writes in decimal digits alone, if the type has it: `parse` would take a sign before them.
pub fn parse_digits<T: FromStr>(text: &str) -> Option<T>
where
    T::Err: Drop,
    ensures { ReadsDigits T.from_str_gives text.now result }
{
    if !are_digits(text) {
        return None;
    }
    text.parse().ok()
}

// The fold has no way out before its end, so that it is compiled to vector instructions: a second pass over a long text costs little.
fn are_digits(text: &str) -> bool
    ensures { result ≡ are_digits text.now }
{
    text.bytes()
        .fold(true, |all, byte| all & byte.is_ascii_digit())
}

// What is read at the unsigned types. It does nothing; its contract is the rule.
#[tactic(auto, using(crate::proofs::Unsigned::reads_number))]
pub fn digits_are_read_as_numbers()
    ensures at_u16 { (bs : List ℕ) (r : Option ℕ) → ReadsDigits ⟦<u16 as FromStr>⟧.from_str_gives bs r → ReadsNumber 16 bs r }
    ensures at_u32 { (bs : List ℕ) (r : Option ℕ) → ReadsDigits ⟦<u32 as FromStr>⟧.from_str_gives bs r → ReadsNumber 32 bs r }
    ensures at_u64 { (bs : List ℕ) (r : Option ℕ) → ReadsDigits ⟦<u64 as FromStr>⟧.from_str_gives bs r → ReadsNumber 64 bs r }
{}
