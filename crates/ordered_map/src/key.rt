// Keys with a lawful total order.
ghost use Rattle.std.specs.Prelude.{◌≡◌};
ghost use Rattle.std.specs.declared.cmp.Ordering.{Ordering};
ghost use Rattle.std.specs.Ordering.{nat_cmp};
ghost use Rattle.std.specs.Cmp.Lexicographic.{slice_cmp};
ghost use Rattle.ordered_map.specs.Order.{Order, order_unsigned, order_bytes};

use std::cmp::Ordering;

// The order is the key's own: a type that has std's `Ord` may stand in another order in a map.
pub trait Key: Copy {
    // How two keys compare.
    ghost cmp: { Self → Self → Ordering };

    // That this is a total order, by which only identical keys are equal.
    ghost lawful: { Order cmp };

    fn compare(&self, other: &Self) -> Ordering
        ensures { result ≡ cmp self.now other.now };
}

impl Key for u64 {
    ghost cmp = { nat_cmp };

    ghost lawful = { order_unsigned };

    fn compare(&self, other: &u64) -> Ordering {
        self.cmp(other)
    }
}

impl Key for [u8; 8] {
    ghost cmp = { slice_cmp nat_cmp };

    ghost lawful = { order_bytes };

    fn compare(&self, other: &[u8; 8]) -> Ordering {
        self.cmp(other)
    }
}
