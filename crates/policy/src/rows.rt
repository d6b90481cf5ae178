ghost use Rattle.std.specs.Prelude.{◌≡◌, true, length};
ghost use Rattle.policy.specs.Rows.{all_within};

use super::Row;

pub mod calls;

// Eight rows, row g about guest g, each within its limits.
#[derive(Clone, Copy)]
pub struct Rows {
    rows: [Row; 8],
    ghost eight: { length rows ≡ 8 },
    ghost within: { all_within rows ≡ true },
}
