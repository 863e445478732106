//! The messages of one viewer, in turn.

use anyhow::{Context, Result};
use gate_model::Bytes;
use gate_model::limits::MOST_ENTRIES;
use gate_outside::MemBell;
use guac_handshake::Door;
use std::alloc::Global;
use std::sync::Wait;
use std::thread::Threads;
use try_doors::{NAME, OneDoor, Opens};
use try_words::{bytes_of, from_last, numbers, push_escaped, split_at_first};
use ws_tunnel::{MemMessages, WsRun, ws_serve};

/// What messages are answered, which ` | ` separates. Before them stands the number of the call of the link that fails,
/// or 0 for none; and 1 where the session is closed as soon as its viewer has joined, else 0. It gives each text that was
/// sent, its first instruction, where that is `ready`, and then from its last `sync` on if it has one; how the messages
/// ended; what the session's host is sent, where one began; and how many places went back to the door.
pub fn conversation<R: Threads + Wait + Copy + Send + 'static>(
    rt: &R,
    alloc: Global,
    input: &str,
) -> Result<String> {
    let (start, messages) = input.split_once(" | ").context("no message")?;
    let numbers = numbers(alloc, start)?;
    let fail = u64::from(*numbers.first().context("no call")?);
    let closes = *numbers.get(1).context("no close")? == 1;
    let mut link = link_of(alloc, messages, fail)?;
    let mut door = OneDoor::new(NAME, MOST_ENTRIES);
    if closes {
        door.set(Opens::Closed);
    }
    let run = ws_serve(rt, alloc, &mut link, &mut door, &MemBell::new());
    let mut text = String::new(alloc);
    for sent in link.sent() {
        push_sent(&mut text, sent.as_slice())?;
    }
    write!(text, "{:?}", run.end)?;
    push_rest(rt, alloc, &mut text, &mut door, run)?;
    Ok(text)
}

fn link_of(alloc: Global, messages: &str, fail: u64) -> Result<MemMessages> {
    let mut all = Vec::new(alloc);
    for message in messages.split(" | ") {
        all.push(Bytes::of(bytes_of(alloc, message)?))?;
    }
    let fail = [fail].to_vec(alloc)?;
    Ok(MemMessages::new(alloc, all, fail))
}

fn push_sent(text: &mut String, sent: &[u8]) -> Result<()> {
    text.push('[')?;
    match split_at_first(sent, b";") {
        Some((ready, rest)) if ready.starts_with(b"5.ready,") => {
            push_escaped(text, ready)?;
            text.push(';')?;
            push_escaped(text, from_last(rest, b"4.sync,"))?;
        }
        _ => push_escaped(text, from_last(sent, b"4.sync,"))?,
    }
    text.push_str("] | ")?;
    Ok(())
}

// What the host is sent, and the places that went back once this one did.
fn push_rest<R: Wait>(
    rt: &R,
    alloc: Global,
    text: &mut String,
    door: &mut OneDoor,
    run: WsRun,
) -> Result<()> {
    if let Some((id, place)) = run.place {
        text.push_str(" | [")?;
        push_escaped(text, &door.session()?.sent(rt, alloc)?)?;
        text.push(']')?;
        door.give(rt, id.as_str(), place);
    }
    write!(text, " | {}", door.given())?;
    Ok(())
}
