ghost use Rattle.std.specs.Prelude.{◌≡◌, ℕ, Some};
ghost use Rattle.policy.specs.Lru.{is_older, lru_choice, OldestPage};
ghost use Rattle.policy.specs.Promise.{choice_lawful};
ghost use Rattle.policy.specs.Meaning.{rows_of};

use crate::bounded::BoundedRow;
use crate::compare::best;
use crate::{Policy, Rows};

// Plain LRU: the guest with the oldest page.
#[derive(Clone, Copy, PartialEq, Eq, Debug)]
pub struct Lru;

impl Policy for Lru {
    const LETTER: char = 'L';

    ghost choice = { λ _. lru_choice };

    ghost promise = { λ _. choice_lawful is_older };

    #[tactic(auto, using(crate::proofs::Ranks::oldest_page))]
    fn choose(&self, rows: &Rows) -> Option<usize>
        ensures choice { result ≡ lru_choice (rows_of rows.now) }
        ensures chosen_has_the_oldest_page { (c : ℕ) → result ≡ Some c → OldestPage (rows_of rows.now) c }
    {
        best(rows, is_older)
    }
}

// An offered row has a rank, so the 0 is never read of one.
fn is_older(one: &BoundedRow, other: &BoundedRow) -> bool
    ensures { result ≡ is_older one.now.row other.now.row }
{
    one.row.rank.unwrap_or(0) < other.row.rank.unwrap_or(0)
}
