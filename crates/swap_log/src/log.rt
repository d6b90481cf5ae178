ghost use Rattle.std.specs.Prelude.{◌≡◌, ◌*◌, ◌≤◌, true, length};
ghost use Rattle.page_store.specs.Stores.{is_page_size, Bytes};
ghost use Rattle.swap_log.specs.Layout.{positions_in, live, Within, Once};

pub mod calls;
mod moves;

// Pages in lent memory in the order in which they were put, each with the number of its slot.
// The layout is given: numbers and pages in two lent arrays side by side, and the end of what is in use.
#[derive(Drop)]
pub struct SwapLog<'a> {
    numbers: &'a mut [u16],
    bytes: &'a mut [u8],
    page: usize,
    count: usize,
    end: usize,
    ghost sized: { is_page_size page ≡ true },
    ghost some: { 1 ≤ count },
    ghost few: { count ≤ 2048 },
    ghost room: { count ≤ length numbers.now },
    ghost most: { length numbers.now ≤ 2 * count },
    ghost whole: { length bytes.now ≡ length numbers.now * page },
    ghost used: { end ≤ length numbers.now },
    ghost bounded: { Bytes bytes.now },
    ghost within: { Within count (positions_in page numbers.now bytes.now end) },
    ghost once: { Once (positions_in page numbers.now bytes.now end) },
    ghost lean: { length (live (positions_in page numbers.now bytes.now end)) ≤ count },
}
