ghost use Rattle.std.specs.Prelude.{◌≡◌};
ghost use Rattle.policy.specs.Choices.{AnswersAs, takes_over, choice_by};
ghost use Rattle.policy.specs.Meaning.{rows_of};

use crate::Rows;
use crate::bounded::BoundedRow;

// The best offered row by a comparison, the first among equals. The comparison is strict: equal rows are not before each other.
#[tactic(auto, using(crate::proofs::Turns::best_more), unfolding(crate::specs::Choices::best_below))]
pub fn best<F: Fn(&BoundedRow, &BoundedRow) -> bool>(rows: &Rows, goes_before: F) -> Option<usize>
    requires { F.IsAlwaysCallable goes_before }
    ensures { (before : _) → AnswersAs F.Fn goes_before before
        → result ≡ choice_by before (rows_of rows.now) }
{
    let mut best = None;
    for guest in 0..8 {
        if takes_over(rows, &goes_before, best, guest) {
            best = Some(guest);
        }
    }
    best
}

fn takes_over<F: Fn(&BoundedRow, &BoundedRow) -> bool>(
    rows: &Rows,
    goes_before: &F,
    best: Option<usize>,
    guest: usize,
) -> bool
    requires { F.IsAlwaysCallable goes_before.now }
    ensures { (before : _) → AnswersAs F.Fn goes_before.now before
        → result ≡ takes_over before (rows_of rows.now) best guest }
{
    let one = rows.bounded(guest);
    match best {
        None => one.row.offered,
        Some(first) => one.row.offered && goes_before(&one, &rows.bounded(first)),
    }
}
