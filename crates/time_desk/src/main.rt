//! Measures a desk of 80 columns and 24 rows: how its memory and its time go with the feeds, and what a join
//! costs. It reads standard input, feeds it in pieces of 512 bytes, over and over, as many as its first
//! word says, takes what waits for the host, and lets as many viewers as its second word says join and
//! leave, one after the other. It prints how many entries the session has then and the newest stamp; the
//! instructions and the bytes of the last join go to standard error. The time and the memory are taken
//! from outside.
#![tactic(auto)]

use anyhow::{Context, Result};
use desk_core::{Desk, NoMemory, Setup};
use gate_model::limits::MOST_PIECE;
use gate_model::{Asked, Faces, Share, Text};
use std::alloc::Global;
use std::env;
use std::io::Read;

const PIECE: usize = 512;

// What the desk tells in the end, and the size of the last join.
#[derive(Drop)]
struct Told {
    entries: u64,
    stamp: u64,
    instructions: usize,
    bytes: usize,
}

fn main(rt: HostRuntime) -> Result<()> {
    let alloc = rt.alloc();
    let mut bytes = Vec::new(alloc);
    rt.reader().read_to_end(&mut bytes)?;
    let mut feeds = 0;
    let mut joins = 0;
    for word in env::args(&rt)?.skip(1) {
        feeds = joins;
        joins = word.parse::<u32>().unwrap_or(1);
    }
    let told = measured(alloc, &bytes, feeds, joins)
        .ok()
        .context("no memory")?;
    let (entries, stamp) = (told.entries, told.stamp);
    println!(rt; "{entries} entries, stamp {stamp}")?;
    let (instructions, bytes) = (told.instructions, told.bytes);
    eprintln!(rt; "the last join: {instructions} instructions, {bytes} bytes")?;
    Ok(())
}

// A session with so many feeds, and then so many joins and leaves.
fn measured(alloc: Global, bytes: &[u8], feeds: u32, joins: u32) -> Result<Told, NoMemory> {
    let mut desk = opened(alloc)?;
    feed_all(&mut desk, alloc, bytes, feeds);
    let mut first = Vec::new(alloc);
    join_all(&mut desk, alloc, joins, &mut first);
    Ok(Told {
        entries: desk.entries(),
        stamp: desk.stamp(),
        instructions: first.iter().filter(|byte| **byte == b';').count(),
        bytes: first.len(),
    })
}

fn opened(alloc: Global) -> Result<Desk, NoMemory> {
    let term = Text::of(String::from_str(alloc, "linux")?);
    let setup = Setup {
        cols: 80,
        rows: 24,
        mode: Share::Control,
        term,
        faces: Faces::Ascii,
        entries: 1 << 40,
    };
    Desk::start(alloc, setup, 0)
}

fn feed_all(desk: &mut Desk, alloc: Global, bytes: &[u8], feeds: u32) {
    let mut at = 0;
    for _ in 0..feeds {
        let piece = piece_at(bytes, at);
        at = if at < bytes.len() { at + PIECE } else { 0 };
        feed_one(desk, alloc, piece);
    }
}

// Feeds the piece, and takes what waits for the host. Want of memory would show in the entries.
fn feed_one(desk: &mut Desk, alloc: Global, piece: &[u8]) {
    if 1 <= piece.len() && piece.len() <= MOST_PIECE {
        let _fed = desk.feed(alloc, piece, 0);
        let mut taken = [0; 4096];
        let _taken = desk.take(&mut taken);
    }
}

// The next piece; behind the end the first one again.
fn piece_at(bytes: &[u8], at: usize) -> &[u8] {
    let rest = bytes.get(at..).unwrap_or(bytes);
    rest.get(..PIECE).unwrap_or(rest)
}

// Joins and leaves, and the text of the last join.
fn join_all(desk: &mut Desk, alloc: Global, joins: u32, first: &mut Vec<u8>) {
    for _ in 0..joins {
        let mut given = Vec::new(alloc);
        if let Ok(joined) = desk.join(Asked::Owner, &mut given) {
            let _left = desk.leave(joined.viewer);
        }
        *first = given;
    }
}
