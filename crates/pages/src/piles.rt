use crate::task::{PAGE, file_in_layer, file_schedule, report, show_refusals, show_slots};
use frame_pool::FramePool;
use page_store::{Lent, PageStore};
use std::io;
use swap_log::SwapLog;
use zero_layer::ZeroLayer;

const SLOTS: usize = 4;

const POSITIONS: usize = 5;

fn new_pool<'a>(bytes: &'a mut [u8], marks: &'a mut [u8]) -> Option<FramePool<'a>> {
    FramePool::check(PAGE, SLOTS, bytes, marks).ok()?;
    Some(FramePool::new(PAGE, SLOTS, bytes, marks))
}

fn new_log<'a>(numbers: &'a mut [u16], bytes: &'a mut [u8]) -> Option<SwapLog<'a>> {
    SwapLog::check(PAGE, SLOTS, POSITIONS, numbers, bytes).ok()?;
    Some(SwapLog::new(PAGE, SLOTS, POSITIONS, numbers, bytes))
}

// A pool by itself, with the refusals of its making and of its calls.
pub fn pool(rt: &impl Print) -> io::Result<()> {
    println!(rt; "a frame pool")?;
    // what the memory held before is of no account
    let mut bytes = [7u8; SLOTS * PAGE];
    let mut marks = [9u8; SLOTS];
    report(
        rt,
        "a pool of pages of 65 bytes",
        FramePool::check(65, SLOTS, &bytes, &marks),
    )?;
    report(
        rt,
        "a pool of no slots",
        FramePool::check(PAGE, 0, &bytes, &marks),
    )?;
    report(
        rt,
        "a pool of 5 slots in memory for 4",
        FramePool::check(PAGE, 5, &bytes, &marks),
    )?;
    let Some(mut pool) = new_pool(&mut bytes, &mut marks) else {
        return Ok(());
    };
    file_schedule(rt, &mut pool)?;
    show_refusals(rt, &mut pool)
}

// A log by itself; the schedule takes more puts than it has positions.
pub fn log(rt: &impl Print) -> io::Result<()> {
    println!(rt; "a swap log of 4 slots and 5 positions")?;
    let mut numbers = [3u16; POSITIONS];
    let mut bytes = [7u8; POSITIONS * PAGE];
    report(
        rt,
        "a log of 9 positions",
        SwapLog::check(PAGE, SLOTS, 9, &numbers, &bytes),
    )?;
    report(
        rt,
        "a log of 6 positions in memory for 5",
        SwapLog::check(PAGE, SLOTS, 6, &numbers, &bytes),
    )?;
    let Some(mut log) = new_log(&mut numbers, &mut bytes) else {
        return Ok(());
    };
    file_schedule(rt, &mut log)?;
    file_schedule(rt, &mut log)?;
    show_refusals(rt, &mut log)
}

pub fn layer_over_pool(rt: &impl Print) -> io::Result<()> {
    let mut bytes = [7u8; SLOTS * PAGE];
    let mut marks = [9u8; SLOTS];
    let Some(mut pool) = new_pool(&mut bytes, &mut marks) else {
        return Ok(());
    };
    layer_over(rt, "a frame pool", "the pool", &mut pool)
}

pub fn layer_over_log(rt: &impl Print) -> io::Result<()> {
    let mut numbers = [3u16; POSITIONS];
    let mut bytes = [7u8; POSITIONS * PAGE];
    let Some(mut log) = new_log(&mut numbers, &mut bytes) else {
        return Ok(());
    };
    layer_over(rt, "a swap log", "the log", &mut log)
}

pub fn layer_over_layer(rt: &impl Print) -> io::Result<()> {
    let mut numbers = [3u16; POSITIONS];
    let mut bytes = [7u8; POSITIONS * PAGE];
    let Some(mut log) = new_log(&mut numbers, &mut bytes) else {
        return Ok(());
    };
    let mut lower = ZeroLayer::new(Lent { store: &mut log });
    layer_over(
        rt,
        "a zero layer over a swap log",
        "the lower layer",
        &mut lower,
    )
}

// A layer over a store, and then the store itself, which has kept no page of zeros.
fn layer_over<S: PageStore>(
    rt: &impl Print,
    below: &str,
    short: &str,
    store: &mut S,
) -> io::Result<()> {
    println!(rt; "a zero layer over {below}")?;
    file_in_layer(rt, store)?;
    println!(rt; "what {short} has kept")?;
    show_slots(rt, store)
}
