//! Measures a session that threads share: one thread feeds letters and others read, each for its own viewer, by the
//! passes of shared_desk, and then the same over a desk behind a mutex of std. Its words are how many microseconds
//! each of the two takes and how many readers there are. It prints how many readers there were; the calls a second
//! go to standard error, with those of the reader that had the fewest.
#![tactic(auto)]

mod bare;
mod passes;
mod sessions;
mod timed;

use anyhow::Result;
use std::env;
use timed::Rates;

fn main(rt: HostRuntime) -> Result<()> {
    let alloc = rt.alloc();
    let mut micros = 0;
    let mut readers = 0;
    for word in env::args(&rt)?.skip(1) {
        micros = readers;
        readers = word.parse::<u32>().unwrap_or(1);
    }
    let readers = readers.min(64);
    let by_passes = passes::measure(&rt, alloc, readers, micros)?;
    let by_mutex = bare::measure(&rt, alloc, readers, micros)?;
    println!(rt; "{readers} readers")?;
    let passes = told(&by_passes);
    let mutex = told(&by_mutex);
    eprintln!(rt;
        "passes: {} feeds, {} reads, {} at least",
        passes.0, passes.1, passes.2
    )?;
    eprintln!(rt;
        "mutex: {} feeds, {} reads, {} at least",
        mutex.0, mutex.1, mutex.2
    )?;
    Ok(())
}

// Feeds, reads, and the reads of the reader with the fewest, a second.
fn told(rates: &Rates) -> (u64, u64, u64) {
    (rates.feeds, rates.reads, rates.least)
}
