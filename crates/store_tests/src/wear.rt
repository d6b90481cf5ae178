// What a store has to bear at its first and last slot, past its end, and over many rounds of puts.
// Refusals are compared by their numbers, so that the numbers are tried too.
use page_store::{PageStore, Refusal};
use std::alloc::{AllocError, Global};
use std::process::Abort;
use std::test::Fail;

// Two buffers of one page, and one that is a byte too long.
#[derive(Drop)]
pub(crate) struct Buffers {
    pub(crate) page: Vec<u8>,
    pub(crate) other: Vec<u8>,
    pub(crate) wrong: Vec<u8>,
}

impl Buffers {
    pub(crate) fn new(heap: Global, page: usize) -> Result<Buffers, AllocError> {
        Ok(Buffers {
            page: vec![in heap; 0u8; page]?,
            other: vec![in heap; 0u8; page]?,
            wrong: vec![in heap; 0u8; page.saturating_add(1)]?,
        })
    }
}

// An empty slot takes a page, gives it back, and is empty again.
fn slot_serves<S: PageStore>(
    rt: &impl Abort,
    store: &mut S,
    slot: usize,
    page: &mut [u8],
    buffer: &mut [u8],
) -> Result<(), Fail> {
    page.fill(0xa5);
    buffer.fill(0);
    assert_eq!(rt; store.is_full(slot), Ok(false), "empty at first");
    assert_eq!(rt;
        store.fetch(slot, buffer).map_err(Refusal::number),
        Err(31),
        "nothing to fetch"
    );
    assert_eq!(rt;
        store.empty(slot).map_err(Refusal::number),
        Err(31),
        "nothing to empty"
    );
    assert_eq!(rt; store.put(slot, page), Ok(()), "put");
    assert_eq!(rt; store.is_full(slot), Ok(true), "full");
    assert_eq!(rt; store.fetch(slot, buffer), Ok(()), "fetched");
    assert!(rt; page[..] == buffer[..], "what was put");
    assert_eq!(rt; store.empty(slot), Ok(()), "emptied");
    assert_eq!(rt; store.is_full(slot), Ok(false), "empty again");
    Ok(())
}

// A slot number that is the store's size is refused by 30, but a wrong length comes first.
fn slot_past_the_end<S: PageStore>(
    rt: &impl Abort,
    store: &mut S,
    page: &mut [u8],
    wrong: &mut [u8],
) -> Result<(), Fail> {
    let slot = store.slot_count();
    assert_eq!(rt; store.is_full(slot).map_err(Refusal::number), Err(30));
    assert_eq!(rt; store.fetch(slot, page).map_err(Refusal::number), Err(30));
    assert_eq!(rt; store.put(slot, page).map_err(Refusal::number), Err(30));
    assert_eq!(rt; store.empty(slot).map_err(Refusal::number), Err(30));
    assert_eq!(rt; store.fetch(slot, wrong).map_err(Refusal::number), Err(3));
    assert_eq!(rt; store.put(slot, wrong).map_err(Refusal::number), Err(3));
    Ok(())
}

// A store serves at its first and last slot, and refuses the slot past them.
fn serves_at_its_ends<S: PageStore>(
    rt: &impl Abort,
    store: &mut S,
    buffers: &mut Buffers,
) -> Result<(), Fail> {
    let last = store.slot_count().saturating_sub(1);
    slot_serves(rt, store, 0, &mut buffers.page, &mut buffers.other)?;
    slot_serves(rt, store, last, &mut buffers.page, &mut buffers.other)?;
    slot_past_the_end(rt, store, &mut buffers.page, &mut buffers.wrong)
}

// What a slot is filled with in a round of puts; now and then zero.
fn tag(round: usize, slot: usize) -> u8 {
    (slot.wrapping_mul(31).wrapping_add(round) % 256) as u8
}

// Puts another page into every slot.
fn put_round<S: PageStore>(
    rt: &impl Abort,
    store: &mut S,
    round: usize,
    page: &mut [u8],
) -> Result<(), Fail> {
    for slot in 0..store.slot_count() {
        page.fill(tag(round, slot));
        assert_eq!(rt; store.put(slot, page), Ok(()));
    }
    Ok(())
}

// Every slot holds the page of that round.
fn holds_round<S: PageStore>(
    rt: &impl Abort,
    store: &S,
    round: usize,
    page: &mut [u8],
    buffer: &mut [u8],
) -> Result<(), Fail> {
    for slot in 0..store.slot_count() {
        page.fill(tag(round, slot));
        assert_eq!(rt; store.fetch(slot, buffer), Ok(()));
        assert!(rt; page[..] == buffer[..]);
    }
    Ok(())
}

// A store has the sizes that it was made with, serves at its ends, and holds what was put last after many rounds of puts.
pub(crate) fn wears_well<S: PageStore>(
    rt: &impl Abort,
    store: &mut S,
    page: usize,
    count: usize,
    rounds: usize,
    buffers: &mut Buffers,
) -> Result<(), Fail> {
    assert_eq!(rt; store.page_size(), page);
    assert_eq!(rt; store.slot_count(), count);
    serves_at_its_ends(rt, store, buffers)?;
    for round in 0..rounds {
        put_round(rt, store, round, &mut buffers.page)?;
    }
    holds_round(
        rt,
        store,
        rounds.saturating_sub(1),
        &mut buffers.page,
        &mut buffers.other,
    )
}
