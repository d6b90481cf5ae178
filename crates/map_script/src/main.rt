#![tactic(auto)]

// Plays lines of calls on a map of 1,024 records, and writes the answer to each.
mod answer;
mod command;
mod play;

use answer::Answer;
use ordered_map::{Node, OrderedMap};
use std::io;
use std::io::{BufRead, BufReader};

fn main(rt: HostRuntime) -> io::Result<()> {
    let heap = rt.alloc();
    let mut table = [Node::blank(0u64); 1024];
    let mut map = OrderedMap::new(&mut table);
    let mut most = 0u8;
    for line in BufReader::new(heap, rt.stdin())?.lines(heap) {
        let line = line?;
        let answer = play::play(&mut map, command::read(line.as_str()));
        if let Some(Answer::Value { comparisons, .. }) = answer {
            most = most.max(comparisons);
        }
        match answer {
            Some(answer) => println!(rt; "{answer}")?,
            None => println!(rt; "? bad line")?,
        }
    }
    if most <= 14 {
        println!(rt; "no look-up took more than 14 comparisons")?;
    } else {
        println!(rt; "a look-up took {most} comparisons")?;
    }
    Ok(())
}
