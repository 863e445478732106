//! Sizes that a viewer asks for in an intake's input.

use crate::links::sent;
use anyhow::{Context, Result, bail};
use gate_model::{Asked, Cause};
use gate_outside::{MemBell, MemSource};
use shared_desk::HostPass;
use std::alloc::Global;
use std::sync::Wait;
use try_sessions::{Screen, joined, opened};
use user_serve::intake;

// A host that asks for the size of the window (RFC 1073).
const ASKS: &[u8] = b"\xff\xfd\x1f";

// A viewer types a key, asks for 3 by 2 cells, and types another.
const OTHER: &[u8] = b"3.key,2.97,1.1;4.size,2.31,2.47;3.key,2.98,1.1;10.disconnect;";

// .. and for the 2 by 1 cells that the session has.
const SAME: &[u8] = b"3.key,2.97,1.1;4.size,2.16,2.16;3.key,2.98,1.1;10.disconnect;";

/// A viewer that may type asks for another size: what the host is sent, and how many entries the session then has,
/// wherever the bytes are cut between those that were there and those that come.
pub fn another<R: Wait>(rt: &R, alloc: Global) -> Result<String> {
    each_cut(rt, alloc, OTHER, Asked::Owner)
}

/// .. for the size that is in force.
pub fn same<R: Wait>(rt: &R, alloc: Global) -> Result<String> {
    each_cut(rt, alloc, SAME, Asked::Owner)
}

/// A viewer that may only look on asks for another size.
pub fn denied<R: Wait>(rt: &R, alloc: Global) -> Result<String> {
    each_cut(rt, alloc, OTHER, Asked::View)
}

// What comes of the bytes, where it is the same at each cut.
fn each_cut<R: Wait>(rt: &R, alloc: Global, bytes: &[u8], asked: Asked) -> Result<String> {
    let first = at_cut(rt, alloc, bytes, asked, 0)?;
    for at in 1..bytes.len() {
        let other = at_cut(rt, alloc, bytes, asked, at)?;
        if other.as_str() != first.as_str() {
            return Ok(format!(in alloc; "{first}, but cut at {at} {other}")?);
        }
    }
    let cuts = bytes.len();
    Ok(format!(in alloc; "{cuts} cuts, {first}")?)
}

// .. where so many bytes were there, and the others come 7 at once.
fn at_cut<R: Wait>(rt: &R, alloc: Global, bytes: &[u8], asked: Asked, at: usize) -> Result<String> {
    let mut host = opened(alloc, Screen::Small)?;
    let (mut link, mut sending) = host.link().context("no link")?;
    if link.feed(rt, alloc, ASKS, 7).is_err() {
        bail!("not fed");
    }
    let there = bytes.get(..at).context("no such cut")?;
    let behind = bytes.get(at..).context("no such cut")?;
    hear(rt, alloc, &mut host, asked, there, behind)?;
    let entries = host.newest();
    let _ = host.close(rt, Cause::Stopped);
    let sent = sent(rt, alloc, &mut sending, 0)?;
    Ok(format!(in alloc; "{entries} entries, {sent}")?)
}

// The intake of a viewer that joins.
fn hear<R: Wait>(
    rt: &R,
    alloc: Global,
    host: &mut HostPass,
    asked: Asked,
    there: &[u8],
    behind: &[u8],
) -> Result<()> {
    let Ok((place, _first)) = joined(rt, alloc, host, asked) else {
        bail!("not joined");
    };
    let mut source = MemSource::new(behind.to_vec(alloc)?, 7, [0u64].to_vec(alloc)?);
    let mut rest = there.to_vec(alloc)?;
    let mut writer = place.writer;
    let bell = MemBell::new();
    let _ = intake(rt, alloc, &mut writer, &mut source, &mut rest, &bell);
    Ok(())
}
