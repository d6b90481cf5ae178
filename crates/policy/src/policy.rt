ghost use Rattle.std.specs.Prelude.{◌≡◌, ℕ, List, Option};
ghost use Rattle.policy.specs.declared.row.Row.{Row};
ghost use Rattle.policy.specs.Rows.{EightRows};
ghost use Rattle.policy.specs.Choices.{Lawful};
ghost use Rattle.policy.specs.Meaning.{rows_of};

use crate::Rows;

// Which guest loses a page: one function of the eight rows. Choosing changes nothing in the policy.
pub trait Policy {
    // the letter by which a trace names the policy; no two have the same
    const LETTER: char;

    // the number of the row that is chosen, or nobody
    ghost choice: { Self → List Row → Option ℕ };

    // Chooses among eight rows.
    fn choose(&self, rows: &Rows) -> Option<usize>
        ensures { result ≡ choice self.now (rows_of rows.now) };

    // it is an offered row, and nobody only where none is offered
    ghost promise: { (p : Self) (rows : List Row) → EightRows rows → Lawful rows (choice p rows) };
}
