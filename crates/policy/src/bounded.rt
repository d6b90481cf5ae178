ghost use Rattle.policy.specs.Rows.{Limits};

use crate::Row;

// A row that is known to be within its limits.
#[derive(Clone, Copy)]
pub struct BoundedRow {
    pub row: Row,
    ghost within: { Limits row },
}
