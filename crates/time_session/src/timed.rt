//! Calls that are made over and over in many threads, and counted.

use anyhow::Result;
use std::alloc::Global;
use std::sync::Wait;
use std::thread::{Threads, for_each_mut};
use std::time::{Clock, Instant};

/// What is fed at once: one letter.
pub const PIECE: &[u8] = b"x";

/// How many calls a thread makes between two looks at the clock.
const CALLS: u32 = 16;

/// How many threads there may be.
const THREADS: usize = 65;

/// What one thread calls over and over.
pub trait Hand {
    fn call<R: Wait>(&mut self, rt: &R, alloc: Global);
}

/// A thread's hand, and how many calls it made.
#[derive(Drop)]
pub struct Timed<H> {
    hand: H,
    calls: u64,
}

impl<H> Timed<H> {
    /// One that has made none.
    pub fn new(hand: H) -> Timed<H> {
        Timed { hand, calls: 0 }
    }
}

/// Calls a second: those of the first hand, those of all others, and the fewest that one of the others had.
#[derive(Clone, Copy)]
pub struct Rates {
    pub feeds: u64,
    pub reads: u64,
    pub least: u64,
}

/// All hands call at once, each in a thread of its own, for so many microseconds.
pub fn measured<R: Threads + Wait + Clock + Sync, H: Hand + Send>(
    rt: &R,
    alloc: Global,
    hands: &mut [Timed<H>],
    micros: u32,
) -> Result<Rates> {
    let start = Instant::now(rt)?;
    for_each_mut(
        rt,
        hands,
        THREADS,
        &|_index, hand: &mut Timed<H>| { call_on(rt, alloc, hand, start, micros) },
    );
    let taken = micros_since(rt, start);
    let mut rates = Rates {
        feeds: 0,
        reads: 0,
        least: 0,
    };
    for (index, hand) in hands.iter().enumerate() {
        let rate = rate(hand.calls, taken);
        if index == 0 {
            rates.feeds = rate;
        } else {
            rates.reads = rates.reads.saturating_add(rate);
            rates.least = if index == 1 {
                rate
            } else {
                rates.least.min(rate)
            };
        }
    }
    Ok(rates)
}

// Calls until the time is over.
fn call_on<R: Wait + Clock, H: Hand>(
    rt: &R,
    alloc: Global,
    hand: &mut Timed<H>,
    start: Instant,
    micros: u32,
) {
    for _ in 0..u64::MAX {
        if u64::from(micros) <= micros_since(rt, start) {
            return;
        }
        for _ in 0..CALLS {
            hand.hand.call(rt, alloc);
        }
        hand.calls = hand.calls.saturating_add(u64::from(CALLS));
    }
}

// How long ago that was, at least 1; where the clock can't be read, long ago.
fn micros_since<R: Clock>(rt: &R, start: Instant) -> u64 {
    match start.elapsed(rt) {
        Ok(time) => (time.as_micros().min(u128::from(u64::MAX)) as u64).max(1),
        Err(_) => u64::MAX,
    }
}

// Calls a second.
fn rate(calls: u64, micros: u64) -> u64 {
    let rate = u128::from(calls) * 1_000_000 / u128::from(micros.max(1));
    rate.min(u128::from(u64::MAX)) as u64
}
