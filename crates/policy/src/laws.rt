ghost use Rattle.std.specs.Prelude.{◌≡◌, [], ◌∷◌};
ghost use Rattle.policy.specs.Choices.{Lawful};
ghost use Rattle.policy.specs.Meaning.{rows_of};
ghost use Rattle.policy.specs.Worked.{WorkedByM, WorkedByL};

use crate::{Lru, MinFunding, Policy, Rows};

// Chooses by any policy.
pub fn choose_by<P: Policy>(policy: &P, rows: &Rows) -> Option<usize>
    ensures choice { result ≡ P.Policy.choice policy.now (rows_of rows.now) }
    ensures an_offered_row_or_nobody { Lawful (rows_of rows.now) result }
{
    policy.choose(rows)
}

// The letters of the policies: M, L.
pub fn letters() -> [char; 2]
    ensures { result ≡ 77 ∷ 76 ∷ [] }
{
    [MinFunding::LETTER, Lru::LETTER]
}

// Worked examples. It does nothing; its contract is the table.
#[tactic(auto, unfolding(crate::specs::Choices::best_below))]
pub fn worked_choices()
    ensures by_min_funding { WorkedByM }
    ensures by_lru { WorkedByL }
{}
