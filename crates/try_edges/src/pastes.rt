//! What clients paste.

use anyhow::{Context, Result, bail};
use clip_stream::ClipSource;
use gate_outside::{Failed, MemSource, Source};
use std::alloc::Global;
use try_words::{bytes_of, first_word, numbers, push_escaped};

/// How many faults are told, and what is given, of bytes that come in pieces: `MOST ROOM [FAILING..] | BYTES`. At most `MOST`
/// come at once, reads ask for at most `ROOM`, and the listed reads of the inner source fail.
pub fn typed(alloc: Global, input: &str) -> Result<String> {
    let (head, bytes) = input.split_once('|').context("no bytes")?;
    let (most, rest) = first_word(head.trim());
    let (room, failing) = first_word(rest);
    let most = most.parse::<usize>().context("no most")?;
    let room = room.parse::<usize>().context("no room")?;
    let mut fail = Vec::new(alloc);
    for number in &numbers(alloc, failing)? {
        fail.push(u64::from(*number))?;
    }
    let sent = bytes_of(alloc, bytes.trim())?;
    let (seen, faults) = given(alloc, &sent, most, room, fail)?;
    let mut text = format!(in alloc; "{faults}:")?;
    push_escaped(&mut text, &seen)?;
    Ok(text)
}

/// What is given for bytes, which is the same in pieces of 1, of 5 and of 8,192.
pub fn alike(alloc: Global, input: &str) -> Result<String> {
    let sent = bytes_of(alloc, input)?;
    let (whole, _) = given(alloc, &sent, 8_192, 64, Vec::new(alloc))?;
    for (most, room) in [(1, 1), (5, 64)] {
        let (cut, _) = given(alloc, &sent, most, room, Vec::new(alloc))?;
        if cut.as_slice() != whole.as_slice() {
            bail!("something else in pieces of {most}");
        }
    }
    let mut text = String::new(alloc);
    push_escaped(&mut text, &whole)?;
    Ok(text)
}

fn given(
    alloc: Global,
    sent: &[u8],
    most: usize,
    room: usize,
    fail: Vec<u64>,
) -> Result<(Vec<u8>, u64)> {
    let source = MemSource::new(sent.to_vec(alloc)?, most.max(1), fail);
    let mut clips = ClipSource::new(alloc, source).ok().context("no memory")?;
    read_all(alloc, &mut clips, room)
}

// Reads at most `room` bytes a call, up to the end: what came, and how many reads failed.
fn read_all<S: Source>(alloc: Global, source: &mut S, room: usize) -> Result<(Vec<u8>, u64)> {
    let mut seen = Vec::new(alloc);
    let (mut piece, mut faults) = ([0u8; 64], 0u64);
    let room = room.clamp(1, 64);
    for _ in 0..1_000_000 {
        match source.read(&mut piece[..room]) {
            Ok(0) => return Ok((seen, faults)),
            Ok(n) => seen.extend_from_slice(&piece[..n.min(room)])?,
            Err(Failed) => faults = faults.saturating_add(1),
        }
    }
    bail!("no end")
}
