//! What each thread of a mixed load does with its pass, a bounded number of times.

ghost use Rattle.std.specs.Prelude.{◌≡◌};

use gate_model::{Act, Asked};
use shared_desk::{HostPass, LinkPass, Place, ReaderPass, SenderPass, WriterPass};
use std::alloc::Global;
use std::sync::Wait;
use std::thread::{Threads, for_each_mut};
use try_sessions::{give_back, joined};

/// How often each does its work.
pub const ROUNDS: u32 = 500;

/// How many letters a typist has.
pub const LETTERS: u32 = 13;

/// How many workers there may be at once.
pub const THREADS: usize = 8;

/// A thread's pass, and what it gathers.
#[derive(Drop)]
pub enum Hand {
    /// Feeds what a host sends.
    Feeder(LinkPass),
    /// Takes what goes to the host.
    Taker(SenderPass, Vec<u8>),
    /// Reads for a viewer.
    Reader(ReaderPass, Vec<u8>),
    /// Types letters in turn, the first of which has this keysym.
    Typist(WriterPass, u32),
    /// Lets viewers join, who read once and leave.
    Host(HostPass),
}

/// A thread's pass, and how many of its calls were answered as they should be.
#[derive(Drop)]
pub struct Worker {
    pub hand: Hand,
    pub answered: u32,
}

impl Worker {
    /// One that has done nothing yet.
    pub fn new(hand: Hand) -> Worker {
        Worker { hand, answered: 0 }
    }
}

/// All do their work at once, each of at most eight in a thread of its own.
pub fn run_all<R: Threads + Wait + Sync>(rt: &R, alloc: Global, workers: &mut [Worker]) {
    for_each_mut(
        rt,
        workers,
        THREADS,
        &|_index, worker: &mut Worker| { work(rt, alloc, worker) },
    );
}

fn work<R: Wait>(rt: &R, alloc: Global, worker: &mut Worker) {
    for round in 0..ROUNDS {
        let answered = step(rt, alloc, &mut worker.hand, round);
        worker.answered = worker.answered.saturating_add(answered);
    }
}

// Works once, and answers how many of its calls were answered as they should be.
fn step<R: Wait>(rt: &R, alloc: Global, hand: &mut Hand, round: u32) -> u32 {
    match hand {
        Hand::Feeder(pass) => u32::from(feed(rt, alloc, pass, round)),
        Hand::Taker(pass, bytes) => u32::from(take(rt, pass, bytes).is_some()),
        Hand::Reader(pass, text) => u32::from(pass.read(rt, text).is_ok()),
        Hand::Typist(pass, first) => { u32::from(type_key(rt, alloc, pass, letter(*first, round))) }
        Hand::Host(host) => let_in(rt, alloc, host),
    }
}

/// What the host sends in a round: a letter in a colour; now and then a line is ended, and the host asks where the
/// cursor is (ECMA-48, 8.3.35).
pub fn feed<R: Wait>(rt: &R, alloc: Global, pass: &mut LinkPass, round: u32) -> bool {
    let piece: &[u8] = match round % 5 {
        0 => b"\x1b[31mA",
        1 => b"B\r\n",
        2 => b"\x1b[42mC",
        3 => b"D\x1b[6n",
        _ => b"E\x1b[0m",
    };
    pass.feed(rt, alloc, piece, u64::from(round)).is_ok()
}

/// Takes once, and answers how many bytes came; none at want of memory for them.
pub fn take<R: Wait>(rt: &R, pass: &mut SenderPass, bytes: &mut Vec<u8>) -> Option<usize> {
    let mut piece = [0u8; 16];
    let count = pass.take(rt, &mut piece).count;
    bytes.extend_from_slice(&piece[..count]).ok()?;
    Some(count)
}

/// The letter that is typed in a round.
pub fn letter(first: u32, round: u32) -> u32 {
    first.wrapping_add(round % LETTERS)
}

/// Presses a key, and answers whether that was written.
pub fn type_key<R: Wait>(rt: &R, alloc: Global, pass: &mut WriterPass, keysym: u32) -> bool
    ensures { pass.new.session ≡ pass.old.session }
{
    let act = Act::Key {
        keysym,
        pressed: true,
    };
    pass.write(rt, alloc, &[act]).is_ok()
}

// A viewer joins, reads and leaves: how many of the three were answered Ok.
fn let_in<R: Wait>(rt: &R, alloc: Global, host: &mut HostPass) -> u32 {
    let Ok((place, first)) = joined(rt, alloc, host, Asked::View) else {
        return 0;
    };
    let Place {
        mut reader,
        mut writer,
        role: _,
    } = place;
    let mut text = first.into_inner();
    let read = reader.read(rt, &mut text).is_ok();
    let left = writer.leave(rt).is_ok();
    give_back(host, reader, writer);
    1 + u32::from(read) + u32::from(left)
}
