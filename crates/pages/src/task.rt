use fee_schedule::{line_count, read_fee, write_fee};
use page_store::{Lent, PageStore, Refusal};
use std::io;
use zero_layer::ZeroLayer;

pub const PAGE: usize = 64;

// Fills a page with fees that rise by `step` cents from `first` on.
fn lay_out(page: &mut [u8], first: u32, step: u32) {
    let mut fee = first;
    for line in 0..line_count(page) {
        let _ = write_fee(page, line, fee);
        fee = fee.saturating_add(step);
    }
}

// The sum of the fees of a page.
fn sum_of(page: &[u8]) -> u64 {
    (0..line_count(page))
        .filter_map(|line| read_fee(page, line))
        .fold(0u64, |sum, fee| sum.saturating_add(u64::from(fee)))
}

// One line on how a call ended.
pub fn report(rt: &impl Print, what: &str, answer: Result<(), Refusal>) -> io::Result<()> {
    match answer {
        Ok(()) => println!(rt; "{what}: done"),
        Err(refusal) => println!(rt; "{what}: {refusal}"),
    }
}

// One line on what a slot holds.
fn show_slot<S: PageStore>(rt: &impl Print, store: &S, slot: usize) -> io::Result<()> {
    let mut page = [0u8; PAGE];
    match store.fetch(slot, &mut page) {
        Ok(()) => {
            let lines = line_count(&page);
            let first = read_fee(&page, 0).unwrap_or(0);
            let sum = sum_of(&page);
            println!(rt;
                "  slot {slot}: {lines} fees, the first {first} cents, together {sum} cents"
            )
        }
        Err(refusal) => println!(rt; "  slot {slot}: nothing (a fetch is {refusal})"),
    }
}

pub fn show_slots<S: PageStore>(rt: &impl Print, store: &S) -> io::Result<()> {
    for slot in 0..store.slot_count() {
        show_slot(rt, store, slot)?;
    }
    Ok(())
}

// Puts a page of fees that rise by 25 cents from `first` on.
fn put_fees<S: PageStore>(store: &mut S, slot: usize, first: u32) -> Result<(), Refusal> {
    let mut page = [0u8; PAGE];
    lay_out(&mut page, first, 25);
    store.put(slot, &page)
}

// Files a schedule of three pages and a blank one, mends one and withdraws one.
pub fn file_schedule<S: PageStore>(rt: &impl Print, store: &mut S) -> io::Result<()> {
    report(
        rt,
        "put fees from 10000 cents on into slot 0",
        put_fees(store, 0, 10_000),
    )?;
    report(
        rt,
        "put fees from 20000 cents on into slot 1",
        put_fees(store, 1, 20_000),
    )?;
    report(
        rt,
        "put fees from 30000 cents on into slot 2",
        put_fees(store, 2, 30_000),
    )?;
    show_slots(rt, store)?;
    report(
        rt,
        "put fees from 25000 cents on into slot 1",
        put_fees(store, 1, 25_000),
    )?;
    report(rt, "empty slot 2", store.empty(2))?;
    report(
        rt,
        "put a blank page into slot 3",
        store.put(3, &[0u8; PAGE]),
    )?;
    show_slots(rt, store)
}

// Shows each refusal of a store.
pub fn show_refusals<S: PageStore>(rt: &impl Print, store: &mut S) -> io::Result<()> {
    let mut page = [0u8; PAGE];
    let mut short = [0u8; PAGE - 1];
    report(rt, "fetch slot 9 into 63 bytes", store.fetch(9, &mut short))?;
    report(rt, "fetch slot 9", store.fetch(9, &mut page))?;
    report(rt, "fetch slot 2", store.fetch(2, &mut page))?;
    report(rt, "put 63 bytes into slot 9", store.put(9, &short))?;
    report(rt, "put a page into slot 9", store.put(9, &page))?;
    report(rt, "empty slot 9", store.empty(9))?;
    report(rt, "empty slot 2", store.empty(2))?;
    match store.is_full(9) {
        Ok(full) => println!(rt; "is slot 9 full: {full}"),
        Err(refusal) => println!(rt; "is slot 9 full: {refusal}"),
    }
}

// Files the schedule in a layer over a store, and shows what the store itself has kept.
pub fn file_in_layer<S: PageStore>(rt: &impl Print, store: &mut S) -> io::Result<()> {
    let mut layer = ZeroLayer::new(Lent { store });
    file_schedule(rt, &mut layer)
}
