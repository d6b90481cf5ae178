ghost use Rattle.std.specs.Prelude.{◌≡◌, ◌*◌, ◌≤◌, true, length};
ghost use Rattle.page_store.specs.Stores.{is_page_size, Bytes};

pub mod calls;

// Pages one after another in lent memory, with a mark byte for each slot.
// The layout is given: bytes and marks in two lent arrays side by side.
#[derive(Drop)]
pub struct FramePool<'a> {
    bytes: &'a mut [u8],
    marks: &'a mut [u8],
    page: usize,
    ghost sized: { is_page_size page ≡ true },
    ghost some: { 1 ≤ length marks.now },
    ghost few: { length marks.now ≤ 2048 },
    ghost whole: { length bytes.now ≡ length marks.now * page },
    ghost bounded: { Bytes bytes.now },
}
