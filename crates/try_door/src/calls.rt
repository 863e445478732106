//! A door in memory, and a client's call at it.

use anyhow::{Context, Result};
use gate_outside::{MemDialer, MemDice, MemSink, MemSource};
use guac_handshake::memory::{MemDoor, MemPlace};
use guac_handshake::{Greeted, greet};
use std::alloc::Global;
use std::sync::Wait;
use std::thread::Threads;

/// The bytes 00 to 0f, which every draw gives.
pub const DRAW: [u8; 16] = [0, 1, 2, 3, 4, 5, 6, 7, 8, 9, 10, 11, 12, 13, 14, 15];

/// The room of a client's sink.
pub const ROOM: usize = 4096;

/// What a client sends, how many bytes a read gives at most, and which calls fail, by their numbers, counted
/// from 1; 0 for none.
#[derive(Drop)]
pub struct Call {
    pub text: Vec<u8>,
    pub piece: usize,
    pub read: u64,
    pub write: u64,
}

/// How a call ended, what the client was written, and what was read and not used.
#[derive(Drop)]
pub struct Done {
    pub end: Greeted<MemPlace>,
    pub written: Vec<u8>,
    pub rest: Vec<u8>,
}

impl Call {
    /// A client whose call doesn't fail and which sends a few bytes at a time.
    pub fn whole(text: Vec<u8>) -> Call {
        Call {
            text,
            piece: 7,
            read: 0,
            write: 0,
        }
    }
}

/// A door without sessions, whose dialer dials so often and then fails.
pub fn door(alloc: Global, dials: usize) -> Result<MemDoor> {
    let mut links = Vec::new(alloc);
    for _ in 0..dials {
        links.push((source(alloc, &[], 1, 0)?, sink(alloc, 1, 0)?))?;
    }
    let dice = MemDice::new([DRAW].to_vec(alloc)?);
    Ok(MemDoor::new(alloc, dice, MemDialer::new(links, Vec::new(alloc))))
}

/// Greets the client.
pub fn greeted<R: Threads + Wait + Copy + Send + 'static>(
    rt: &R,
    alloc: Global,
    door: &mut MemDoor,
    client: &Call,
) -> Result<Done> {
    let mut source = source(alloc, &client.text, client.piece, client.read)?;
    let mut sink = sink(alloc, ROOM, client.write)?;
    let mut rest = Vec::new(alloc);
    let end = greet(rt, alloc, &mut source, &mut sink, &mut rest, door);
    Ok(Done {
        end,
        written: sink.written().to_vec(alloc)?,
        rest,
    })
}

/// A source of the text.
pub fn source(alloc: Global, text: &[u8], piece: usize, fail: u64) -> Result<MemSource> {
    Ok(MemSource::new(text.to_vec(alloc)?, piece.max(1), [fail].to_vec(alloc)?))
}

/// A sink that takes all of a piece at once, where there is room.
pub fn sink(alloc: Global, room: usize, fail: u64) -> Result<MemSink> {
    MemSink::new(alloc, room, ROOM, [fail].to_vec(alloc)?)
        .ok()
        .context("no memory")
}
