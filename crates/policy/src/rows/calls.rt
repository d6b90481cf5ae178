ghost use Rattle.std.specs.Prelude.{◌≡◌};
ghost use Rattle.policy.specs.Rows.{absent_row, is_within, all_within, taken, row_at, Limits};
ghost use Rattle.policy.specs.Meaning.{rows_of, rows_in};

use super::Rows;
use crate::Row;
use crate::bounded::BoundedRow;

impl Row {
    // The row of a guest that is not admitted.
    pub fn absent() -> Row
        ensures { result ≡ absent_row }
    {
        Row::default()
    }

    fn is_within(&self) -> bool
        ensures { result ≡ is_within self.now }
    {
        if self.active > self.resident || self.resident > 256 || self.shares > 100_000 {
            return false;
        }
        if !self.offered {
            return true;
        }
        self.resident >= 1 && self.shares >= 1 && self.rank.is_some()
    }
}

fn are_within(rows: &[Row]) -> bool
    ensures { result ≡ all_within rows.now }
{
    rows.iter().all(Row::is_within)
}

impl Rows {
    // These rows, if every one is within its limits.
    pub fn new(rows: [Row; 8]) -> Option<Rows>
        ensures { rows_in result ≡ taken rows }
    {
        if !are_within(&rows) {
            return None;
        }
        Some(Rows { rows })
    }

    // The row of a guest; from guest 8 on, the row of one that is not admitted.
    pub fn row(&self, guest: usize) -> Row
        ensures reads { result ≡ row_at (rows_of self.now) guest }
        ensures keeps_the_limits { Limits result }
    {
        self.bounded(guest).row
    }

    // The same row, known to be within its limits.
    #[tactic(auto, using(crate::proofs::Within::limits_at))]
    pub(crate) fn bounded(&self, guest: usize) -> BoundedRow
        ensures { result.row ≡ row_at (rows_of self.now) guest }
    {
        let row = if guest < 8 {
            self.rows[guest]
        } else {
            Row::absent()
        };
        BoundedRow { row }
    }
}
