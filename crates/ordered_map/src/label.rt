// Labels as keys.
ghost use Rattle.ordered_map.specs.Labels.{label_cmp, label_order};

use crate::key::Key;
use std::cmp::Ordering;

// Eight bytes, compared byte by byte from the first.
#[derive(Clone, Copy, PartialEq, Eq, PartialOrd, Ord, Debug)]
pub struct Label(pub [u8; 8]);

impl Key for Label {
    ghost cmp = { label_cmp };

    ghost lawful = { label_order };

    fn compare(&self, other: &Label) -> Ordering {
        self.cmp(other)
    }
}
