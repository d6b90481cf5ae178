ghost use Rattle.std.specs.Prelude.{◌≡◌, ℕ, Some, None};
ghost use Rattle.policy.specs.Refusals.{answer};
ghost use Rattle.policy.specs.Funding.{tax_refusal, cost_of, pays_less, funding_choice, LowestRatio};
ghost use Rattle.policy.specs.Promise.{choice_lawful};
ghost use Rattle.policy.specs.Meaning.{rows_of, tax_in};

use super::MinFunding;
use crate::bounded::BoundedRow;
use crate::compare::best;
use crate::{Policy, Refusal, Rows};

impl MinFunding {
    // Whether there is a policy of this tax.
    pub fn check(tax: u32) -> Result<(), Refusal>
        ensures { result ≡ answer (tax_refusal tax) tt }
    {
        if tax > 99 {
            return Err(Refusal::Tax);
        }
        Ok(())
    }

    // The policy of this tax.
    pub fn new(tax: u32) -> MinFunding
        requires { tax_refusal tax ≡ None }
        ensures { result.tax ≡ tax }
    {
        MinFunding { tax }
    }

    // At most 100 × 256 = 25,600, since no page costs more than 100.
    fn cost(&self, bounded: &BoundedRow) -> u32
        ensures { result ≡ cost_of self.now.tax bounded.now.row }
    {
        let row = bounded.row;
        (100 - self.tax) * u32::from(row.active) + 100 * u32::from(row.resident - row.active)
    }

    // A product is at most 100,000 × 25,600 = 2,560,000,000, below 2^32.
    #[tactic(auto, using(crate::proofs::Ratios::product_fits))]
    fn pays_less(&self, one: &BoundedRow, other: &BoundedRow) -> bool
        ensures { result ≡ pays_less self.now.tax one.now.row other.now.row }
    {
        one.row.shares * self.cost(other) < other.row.shares * self.cost(one)
    }
}

// The policy of a tax, where there is one.
impl TryFrom<u32> for MinFunding {
    type Error = Refusal;

    ghost try_from_gives = { λ tax r. tax_in r ≡ answer (tax_refusal tax) tax };

    fn try_from(tax: u32) -> Result<Self, Refusal> {
        MinFunding::check(tax)?;
        Ok(MinFunding::new(tax))
    }
}

impl Policy for MinFunding {
    const LETTER: char = 'M';

    ghost choice = { λ p. funding_choice p.tax };

    ghost promise = { λ p. choice_lawful (pays_less p.tax) };

    #[tactic(auto, using(crate::proofs::Ratios::lowest_ratio))]
    fn choose(&self, rows: &Rows) -> Option<usize>
        ensures choice { result ≡ funding_choice self.now.tax (rows_of rows.now) }
        ensures chosen_has_the_lowest_ratio { (c : ℕ) → result ≡ Some c → LowestRatio self.now.tax (rows_of rows.now) c }
    {
        best(rows, |one, other| self.pays_less(one, other))
    }
}
