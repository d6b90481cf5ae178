// The way down from the root, as a stack of steps to come back up by.
use arrayvec::ArrayVec;

// A place, and whether the way goes on to the left of it.
#[derive(Clone, Copy, Default)]
pub struct Step {
    pub place: u16,
    pub left: bool,
}

// The steps, the lowest last: at most 14, since no tree of 1,024 records is higher.
pub type Path = ArrayVec<Step, 14>;
