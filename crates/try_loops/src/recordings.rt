//! A recording of a session.

use crate::links::sink;
use anyhow::{Context, Result, bail};
use gate_model::{Asked, Cause, Instr};
use gate_outside::{MemBell, MemSink};
use guac_framing::{Next, next_instruction};
use guac_instr::read_server;
use session_record::keep;
use std::alloc::Global;
use std::sync::Wait;
use try_sessions::{Screen, joined, opened};
use user_serve::OutletEnd;

// The most bytes of a recording.
const ROOM: usize = 1 << 20;

// How long the closing instruction is.
const CLOSING: usize = 14;

/// A recorder joins before the host sends anything; a letter comes three times, and the session is closed: how the
/// recording ended, the stamps of its syncs, and its last bytes.
pub fn three_feeds<R: Wait>(rt: &R, alloc: Global) -> Result<String> {
    let mut sink = sink(alloc, ROOM, ROOM, 0)?;
    let end = recorded(rt, alloc, &mut sink)?;
    let text = sink.written();
    let stamps = stamps(alloc, text)?;
    let last = std::str::from_utf8(&text[text.len().saturating_sub(CLOSING)..])?;
    Ok(format!(in alloc; "{end:?}, syncs{stamps}, '{last}' at its end")?)
}

fn recorded<R: Wait>(rt: &R, alloc: Global, sink: &mut MemSink) -> Result<OutletEnd> {
    let mut host = opened(alloc, Screen::Whole)?;
    let Ok((mut place, first)) = joined(rt, alloc, &mut host, Asked::Keep) else {
        bail!("not joined");
    };
    let (mut link, _sender) = host.link().context("no link")?;
    for _ in 0..3 {
        if link.feed(rt, alloc, b"A", 0).is_err() {
            bail!("not fed");
        }
    }
    let _ = host.close(rt, Cause::ServerEnd);
    Ok(keep(rt, alloc, &mut place.reader, &first, sink, &MemBell::new()))
}

// The stamps of the syncs in a text of whole instructions, each behind a space.
fn stamps(alloc: Global, text: &[u8]) -> Result<String> {
    let mut stamps = String::new(alloc);
    let mut rest = text;
    for _ in 0..text.len() {
        match next_instruction(rest) {
            Next::Whole(frame, count) => {
                if let Some(Instr::Sync { stamp }) = read_server(&frame) {
                    write!(stamps, " {stamp}")?;
                }
                rest = &rest[count..];
            }
            Next::More => break,
            Next::Bad(_) => bail!("no instruction"),
        }
    }
    Ok(stamps)
}
