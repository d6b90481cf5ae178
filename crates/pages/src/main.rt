#![tactic(auto)]

mod piles;
mod task;

use std::io;

// Files a fee schedule in one store after another.
fn main(rt: HostRuntime) -> io::Result<()> {
    piles::pool(&rt)?;
    piles::log(&rt)?;
    piles::layer_over_pool(&rt)?;
    piles::layer_over_log(&rt)?;
    piles::layer_over_layer(&rt)
}
