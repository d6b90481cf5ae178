use page_store::PageStore;

pub mod calls;

// Keeps pages of zeros out of the store below: a slot that holds one is only marked.
// The marks are given: one for each slot number that a store may have.
#[derive(Drop)]
pub struct ZeroLayer<S: PageStore> {
    below: S,
    marks: [bool; 2048],
}
