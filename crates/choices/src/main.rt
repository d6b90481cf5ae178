#![tactic(auto)]

// Reads lines, and writes for each the key or the choice that it asks for.
mod answer;
mod choose;
mod fault;
mod lines;

use std::io;
use std::io::{BufRead, BufReader};

fn main(rt: HostRuntime) -> io::Result<()> {
    let heap = rt.alloc();
    for line in BufReader::new(heap, rt.stdin())?.lines(heap) {
        let line = line?;
        match lines::answer(heap, line.as_str())? {
            Ok(answer) => println!(rt; "{answer}")?,
            Err(fault) => println!(rt; "{fault}")?,
        }
    }
    Ok(())
}
