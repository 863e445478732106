//! A pump and a sender over a link in memory.

use crate::closing_bell::ClosingBell;
use anyhow::{Context, Result, bail};
use gate_model::Cause;
use gate_outside::{MemBell, MemClock, MemSink, MemSource};
use session_link::{PumpEnd, SenderEnd, pump, sender};
use shared_desk::{Closed, HostPass, LinkPass, SenderPass};
use std::alloc::Global;
use std::sync::Wait;
use try_sessions::{Screen, opened};

// A host that asks whether the terminal's type can be told (RFC 1091), and then writes: 8 bytes, answered by 3.
const SENT: &[u8] = b"\xff\xfd\x18hello";

// More runs than a loop has calls.
const MOST: u64 = 1000;

// The most bytes of a sink.
const ROOM: usize = 64;

/// What a host sends is fed, piece by piece, and its question is answered, byte by byte. At its end the session is
/// closed, and the sender ends once all was written: how both ended and what was written, and how a second pump ends.
pub fn whole<R: Wait>(rt: &R, alloc: Global) -> Result<String> {
    pumped_and_sent(rt, alloc, 0)
}

/// The second read fails, and the session is closed for that.
pub fn failed_read<R: Wait>(rt: &R, alloc: Global) -> Result<String> {
    pumped_and_sent(rt, alloc, 2)
}

// The pump, then the sender, and then a pump again, where the read of this number fails.
fn pumped_and_sent<R: Wait>(rt: &R, alloc: Global, fail: u64) -> Result<String> {
    let (mut link, mut sending) = passes(alloc)?;
    let pumped = pumped(rt, alloc, &mut link, 4, fail)?;
    let sent = sent(rt, alloc, &mut sending, 0)?;
    let again = pumped_again(rt, alloc, &mut link)?;
    Ok(format!(in alloc; "{pumped:?}, {sent}, then {again:?}")?)
}

/// The second write fails, and the session is closed for that.
pub fn failed_write<R: Wait>(rt: &R, alloc: Global) -> Result<String> {
    let (mut link, mut sending) = passes(alloc)?;
    let fed = link.feed(rt, alloc, SENT, 7).is_ok();
    let sent = sent(rt, alloc, &mut sending, 2)?;
    let again = pumped_again(rt, alloc, &mut link)?;
    Ok(format!(in alloc; "fed: {fed}, {sent}, then {again:?}")?)
}

fn passes(alloc: Global) -> Result<(LinkPass, SenderPass)> {
    let mut host = opened(alloc, Screen::Wide)?;
    host.link().context("no link")
}

// A pump that reads at most so many bytes at once, and whose read of this number fails.
fn pumped<R: Wait>(
    rt: &R,
    alloc: Global,
    link: &mut LinkPass,
    most: usize,
    fail: u64,
) -> Result<PumpEnd> {
    let mut source = MemSource::new(SENT.to_vec(alloc)?, most.max(1), [fail].to_vec(alloc)?);
    let mut clock = MemClock::new([7u64].to_vec(alloc)?);
    Ok(pump(rt, alloc, link, &mut source, &mut clock, &MemBell::new()))
}

// A pump on a session that is closed.
fn pumped_again<R: Wait>(rt: &R, alloc: Global, link: &mut LinkPass) -> Result<PumpEnd> {
    pumped(rt, alloc, link, 4, 0)
}

/// A pump reads byte by byte, and read k fails, for each k: how many runs end by that fault, in how many of them the
/// session is closed for a fault of the link, and how the run behind them ends, and for which cause.
pub fn failing_reads<R: Wait>(rt: &R, alloc: Global) -> Result<String> {
    let (mut faults, mut kept) = (0u32, 0u32);
    for fail in 1..MOST {
        let (end, cause) = pumped_alone(rt, alloc, fail)?;
        if end != PumpEnd::ReadFault {
            return Ok(format!(in alloc;
                "{faults} runs, {kept} closed for LinkFault, then {end:?} and {cause:?}"
            )?);
        }
        faults = faults.saturating_add(1);
        kept = kept.saturating_add(u32::from(cause == Cause::LinkFault));
    }
    bail!("each run has a fault")
}

// How the pump of a session ends whose read of this number fails, and the cause that the session keeps.
fn pumped_alone<R: Wait>(rt: &R, alloc: Global, fail: u64) -> Result<(PumpEnd, Cause)> {
    let mut host = opened(alloc, Screen::Wide)?;
    let (mut link, _sending) = host.link().context("no link")?;
    let end = pumped(rt, alloc, &mut link, 1, fail)?;
    Ok((end, kept_cause(rt, &mut host)?))
}

/// A sender writes byte by byte, and write k fails, for each k: as of a pump. The session is closed once its sender
/// waits for more.
pub fn failing_writes<R: Wait>(rt: &R, alloc: Global) -> Result<String> {
    let (mut faults, mut kept) = (0u32, 0u32);
    for fail in 1..MOST {
        let (end, cause) = sent_alone(rt, alloc, fail)?;
        if end != SenderEnd::WriteFault {
            return Ok(format!(in alloc;
                "{faults} runs, {kept} closed for LinkFault, then {end:?} and {cause:?}"
            )?);
        }
        faults = faults.saturating_add(1);
        kept = kept.saturating_add(u32::from(cause == Cause::LinkFault));
    }
    bail!("each run has a fault")
}

// How the sender of a session ends whose write of this number fails, and the cause that the session keeps.
fn sent_alone<R: Wait>(rt: &R, alloc: Global, fail: u64) -> Result<(SenderEnd, Cause)> {
    let mut host = opened(alloc, Screen::Wide)?;
    let (mut link, mut sending) = host.link().context("no link")?;
    if link.feed(rt, alloc, SENT, 7).is_err() {
        bail!("not fed");
    }
    let bell = ClosingBell::new(alloc, link)?;
    let mut sink = sink(alloc, ROOM, 1, fail)?;
    let end = sender(rt, &mut sending, &mut sink, &bell);
    Ok((end, kept_cause(rt, &mut host)?))
}

// The cause for which the session was closed.
fn kept_cause<R: Wait>(rt: &R, host: &mut HostPass) -> Result<Cause> {
    let Err(Closed { cause }) = host.close(rt, Cause::Stopped) else {
        bail!("not closed");
    };
    Ok(cause)
}

/// How a sender ends that writes byte by byte, and whose write of this number fails, and what it wrote.
pub fn sent<R: Wait>(rt: &R, alloc: Global, sending: &mut SenderPass, fail: u64) -> Result<String> {
    let mut sink = sink(alloc, ROOM, 1, fail)?;
    let end: SenderEnd = sender(rt, sending, &mut sink, &MemBell::new());
    let mut text = String::new(alloc);
    push_hexadecimal(&mut text, sink.written())?;
    Ok(format!(in alloc; "{end:?} with {text}")?)
}

/// A sink of this room that takes so many bytes at once, and fails at the write of this number.
pub fn sink(alloc: Global, room: usize, most: usize, fail: u64) -> Result<MemSink> {
    let fails = [fail].to_vec(alloc)?;
    MemSink::new(alloc, room, most.max(1), fails)
        .ok()
        .context("no memory")
}

fn push_hexadecimal(text: &mut String, bytes: &[u8]) -> Result<()> {
    for byte in bytes {
        write!(text, "{byte:02x}")?;
    }
    Ok(())
}
