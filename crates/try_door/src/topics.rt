//! Which door the clients of a file call at, and what is looked at.

use crate::calls::{Call, Done, door, greeted};
use crate::forms::{ask_of, form, undialed};
use crate::{forms, service};
use anyhow::{Context, Result, bail};
use guac_handshake::Greeted;
use guac_handshake::memory::{MemDoor, MemPlace};
use std::alloc::Global;
use std::sync::Wait;
use std::thread::Threads;
use try_words::{bytes_of, push_escaped};

// A client that begins a session.
const FIRST: &str =
    "6.select,6.telnet;7.connect,13.VERSION_1_1_0,9.localhost,2.23,0.,0.,7.control;";

/// What a client's call gives.
pub fn value<R: Threads + Wait + Copy + Send + 'static>(
    rt: &R,
    alloc: Global,
    topic: &str,
    input: &str,
) -> Result<String> {
    match topic {
        "greetings" => answer(rt, alloc, &mut door(alloc, 1)?, input),
        "undialed" => answer(rt, alloc, &mut door(alloc, 0)?, input),
        "members" => member(rt, alloc, input),
        "asks" => asked(rt, alloc, input),
        "ends" => end(rt, alloc, input),
        "forms" => form(rt, alloc, input),
        "undialed_forms" => undialed(rt, alloc, input),
        "member_forms" => forms::member(rt, alloc, input),
        "service" => service::answer(rt, alloc, input),
        _ => bail!("no such topic"),
    }
}

// What a client is written.
fn answer<R: Threads + Wait + Copy + Send + 'static>(
    rt: &R,
    alloc: Global,
    door: &mut MemDoor,
    input: &str,
) -> Result<String> {
    let done = greeted(rt, alloc, door, &Call::whole(bytes_of(alloc, input)?))?;
    let mut text = String::new(alloc);
    push_escaped(&mut text, &done.written)?;
    Ok(text)
}

// What a client is written where a session has begun.
fn member<R: Threads + Wait + Copy + Send + 'static>(
    rt: &R,
    alloc: Global,
    input: &str,
) -> Result<String> {
    let mut door = door(alloc, 2)?;
    answer(rt, alloc, &mut door, FIRST)?;
    answer(rt, alloc, &mut door, input)
}

// What the door was asked.
fn asked<R: Threads + Wait + Copy + Send + 'static>(
    rt: &R,
    alloc: Global,
    input: &str,
) -> Result<String> {
    let mut door = door(alloc, 1)?;
    answer(rt, alloc, &mut door, input)?;
    ask_of(alloc, &door)
}

// How a call ended, how many places went back to the door under an ID that is there, and what was read and
// not used. Before the client's text stand how many bytes a read gives at most, and the numbers of the read
// and of the write that fail, 0 for none.
fn end<R: Threads + Wait + Copy + Send + 'static>(
    rt: &R,
    alloc: Global,
    input: &str,
) -> Result<String> {
    let (piece, rest) = input.split_once(' ').context("no piece")?;
    let (read, rest) = rest.split_once(' ').context("no read")?;
    let (write, client) = rest.split_once(' ').unwrap_or((rest, ""));
    let this = Call {
        text: bytes_of(alloc, client)?,
        piece: piece.parse::<usize>()?,
        read: read.parse::<u64>()?,
        write: write.parse::<u64>()?,
    };
    let mut door = door(alloc, 1)?;
    let done = greeted(rt, alloc, &mut door, &this)?;
    let mut text = String::new(alloc);
    push_end(&mut text, &done)?;
    write!(text, ", {} back, rest [", door.given())?;
    push_escaped(&mut text, &done.rest)?;
    text.push(']')?;
    Ok(text)
}

fn push_end(text: &mut String, done: &Done) -> Result<()> {
    let end: &Greeted<MemPlace> = &done.end;
    match end {
        Greeted::Ready(welcome) => write!(text, "ready {}", welcome.id.as_str())?,
        Greeted::Refused(status) => write!(text, "refused {status}")?,
        Greeted::Ended => text.push_str("ended")?,
        Greeted::ReadFault => text.push_str("read fault")?,
        Greeted::WriteFault => text.push_str("write fault")?,
        Greeted::NoMemory => text.push_str("no memory")?,
    }
    Ok(())
}
