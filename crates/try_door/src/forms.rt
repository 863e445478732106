//! Forms of HTTP requests that are asked of a door.

use crate::calls::door;
use anyhow::Result;
use gate_model::Share;
use guac_handshake::memory::MemDoor;
use guac_handshake::{FormRefusal, Refused, open_form};
use std::alloc::Global;
use std::sync::Wait;
use std::thread::Threads;
use try_words::bytes_of;

// A form that begins a session.
const FIRST: &[u8] = b"hostname=localhost&sharing=control";

/// What a form asks of a door without sessions that dials: what the door was asked, or why it wasn't.
pub fn form<R: Threads + Wait + Copy + Send + 'static>(
    rt: &R,
    alloc: Global,
    input: &str,
) -> Result<String> {
    let mut door = door(alloc, 1)?;
    asked(rt, alloc, &mut door, &bytes_of(alloc, input)?)
}

/// The same of a door that doesn't dial.
pub fn undialed<R: Threads + Wait + Copy + Send + 'static>(
    rt: &R,
    alloc: Global,
    input: &str,
) -> Result<String> {
    let mut door = door(alloc, 0)?;
    asked(rt, alloc, &mut door, &bytes_of(alloc, input)?)
}

/// The same of a door at which a session has begun, with the ID of the bytes 00 to 0f.
pub fn member<R: Threads + Wait + Copy + Send + 'static>(
    rt: &R,
    alloc: Global,
    input: &str,
) -> Result<String> {
    let mut door = door(alloc, 2)?;
    asked(rt, alloc, &mut door, FIRST)?;
    let mut text = String::new(alloc);
    match open_form(rt, alloc, &bytes_of(alloc, input)?, &mut door) {
        Ok(welcome) => write!(text, "ready {}", welcome.id.as_str())?,
        Err(refusal) => text.push_str(word_of(refusal))?,
    }
    Ok(text)
}

fn asked<R: Threads + Wait + Copy + Send + 'static>(
    rt: &R,
    alloc: Global,
    door: &mut MemDoor,
    body: &[u8],
) -> Result<String> {
    match open_form(rt, alloc, body, door) {
        Ok(_) => ask_of(alloc, door),
        Err(refusal) => Ok(word_of(refusal).to_string(alloc)?),
    }
}

/// The last that a door was asked of a session that is to begin.
pub fn ask_of(alloc: Global, door: &MemDoor) -> Result<String> {
    let Some(ask) = door.last_ask() else {
        return Ok("nothing".to_string(alloc)?);
    };
    let host = ask.host.as_str();
    let term = ask.term.as_str();
    let mode = match ask.mode {
        Share::Nobody => "none",
        Share::View => "view",
        Share::Control => "control",
    };
    let (port, read_only, cols, rows) = (ask.port, ask.read_only, ask.cols, ask.rows);
    Ok(format!(in alloc; "{host} {port} {term} {mode} {read_only} {cols} {rows}")?)
}

fn word_of(refusal: FormRefusal) -> &'static str {
    match refusal {
        FormRefusal::Form => "out of form",
        FormRefusal::NoMemory | FormRefusal::Door(Refused::NoMemory) => "no memory",
        FormRefusal::Door(Refused::Absent) => "absent",
        FormRefusal::Door(Refused::Conflict) => "conflict",
        FormRefusal::Door(Refused::Dial) => "not dialed",
        FormRefusal::Door(_) => "refused",
    }
}
