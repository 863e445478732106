//! Requests for tunnels, in turn.

use crate::exchange::{Answered, exchange};
use crate::service::Service;
use anyhow::{Context, Result};
use std::alloc::Global;
use std::str;
use std::sync::Wait;
use std::thread::Threads;
use try_doors::Opens;
use try_words::{bytes_of, from_last, push_escaped};

// How many entries a session has room for, and a short one: its start, its first join and one feed.
const ENTRIES: u64 = 1 << 40;

const FEW_ENTRIES: u64 = 3;

// How many bytes a connection gives at once.
const PIECE: usize = 4096;

/// How requests are written, and what is shown of their responses.
#[derive(Clone, Copy, PartialEq, Eq)]
pub enum Shown {
    /// Of a method, a target and a body: `STATUS CODE [BODY]`, the body from its last `sync` on if it has one.
    Body,
    /// Of the bytes of a connection: `STATUS CODE`, or `nothing`.
    Status,
    /// Of the bytes of a connection: the whole text.
    Text,
}

/// What each step gives, behind each other. Before the steps, which ` | ` separates, stands what is there at the
/// start: `new` for nothing; or a session and its first tunnel, one that nobody may join (`nobody`), one that others
/// may control (`control`), and such a one of three entries (`short`).
pub fn answers<R: Threads + Wait + Copy + Send + 'static>(
    rt: &R,
    alloc: Global,
    input: &str,
    shown: Shown,
) -> Result<String> {
    let (start, steps) = input.split_once(" | ").context("no step")?;
    let mut service = begun(rt, alloc, start)?;
    answers_of(rt, alloc, &mut service, steps, shown)
}

fn answers_of<R: Threads + Wait + Copy + Send + 'static>(
    rt: &R,
    alloc: Global,
    service: &mut Service,
    steps: &str,
    shown: Shown,
) -> Result<String> {
    let mut text = String::new(alloc);
    for step in steps.split(" | ") {
        take(rt, alloc, service, step, shown, &mut text)?;
    }
    let found = text.as_str().strip_suffix(" | ").unwrap_or(text.as_str());
    Ok(found.to_string(alloc)?)
}

/// What is there at a start.
pub fn begun<R: Threads + Wait + Copy + Send + 'static>(
    rt: &R,
    alloc: Global,
    start: &str,
) -> Result<Service> {
    let (entries, form) = start_of(start).context("no such start")?;
    let mut service = Service::new(alloc, entries)?;
    begin(rt, alloc, &mut service, form)?;
    Ok(service)
}

// How many entries a session has room for, and the form that begins it, which is empty where none begins.
fn start_of(start: &str) -> Option<(u64, &'static str)> {
    match start {
        "new" => Some((ENTRIES, "")),
        "nobody" => Some((ENTRIES, "hostname=h&sharing=")),
        "control" => Some((ENTRIES, "hostname=h&sharing=control")),
        "short" => Some((FEW_ENTRIES, "hostname=h&sharing=control")),
        _ => None,
    }
}

fn begin<R: Threads + Wait + Copy + Send + 'static>(
    rt: &R,
    alloc: Global,
    service: &mut Service,
    form: &str,
) -> Result<()> {
    if !form.is_empty() {
        let bytes = request_of(alloc, "POST", "/tunnel?connect", form.as_bytes())?;
        exchange(rt, alloc, service, &bytes, PIECE)?;
    }
    Ok(())
}

// `say` is a byte that the host says, which a full or closed session refuses, `sent` what it is sent, `given` how many
// places went back to the door; `close` and `fill` act on the session, `forget` takes it from the door, and from
// `undialed` or `unstarted` on no host is reached or no job starts. Anything else is a request.
fn take<R: Threads + Wait + Copy + Send + 'static>(
    rt: &R,
    alloc: Global,
    service: &mut Service,
    step: &str,
    shown: Shown,
    text: &mut String,
) -> Result<()> {
    match step {
        "say" => drop(service.door.session()?.say(rt, alloc, b'A')),
        "close" => service.door.session()?.close(rt),
        "fill" => service.door.session()?.fill(rt, alloc),
        "forget" => drop(service.door.forget()),
        "undialed" => service.door.set(Opens::Undialed),
        "unstarted" => service.door.set(Opens::Unstarted),
        "given" => write!(text, "{} | ", service.door.given())?,
        "sent" => push_bytes(text, &service.door.session()?.sent(rt, alloc)?)?,
        _ => ask(rt, alloc, service, step, shown, text)?,
    }
    Ok(())
}

// The request of a step.
fn ask<R: Threads + Wait + Copy + Send + 'static>(
    rt: &R,
    alloc: Global,
    service: &mut Service,
    step: &str,
    shown: Shown,
    text: &mut String,
) -> Result<()> {
    let bytes = bytes_asked(alloc, step, shown)?;
    let answered = exchange(rt, alloc, service, &bytes, PIECE)?;
    push_answer(text, &answered, shown)
}

// The bytes of the request of a step.
fn bytes_asked(alloc: Global, step: &str, shown: Shown) -> Result<Vec<u8>> {
    if shown != Shown::Body {
        return bytes_of(alloc, step);
    }
    let (method, rest) = step.split_once(' ').context("no method")?;
    let (target, body) = rest.split_once(' ').unwrap_or((rest, ""));
    request_of(alloc, method, target, &bytes_of(alloc, body)?)
}

/// A request with this method, target and body.
pub fn request_of(alloc: Global, method: &str, target: &str, body: &[u8]) -> Result<Vec<u8>> {
    let size = body.len();
    let head = format!(in alloc; "{method} {target} HTTP/1.1\r\nContent-Length: {size}\r\n\r\n")?;
    let mut bytes = head.as_str().as_bytes().to_vec(alloc)?;
    bytes.extend_from_slice(body)?;
    Ok(bytes)
}

fn push_answer(text: &mut String, answered: &Option<Answered>, shown: Shown) -> Result<()> {
    let Some(answered) = answered else {
        text.push_str("nothing | ")?;
        return Ok(());
    };
    let response = &answered.response;
    match shown {
        Shown::Body => {
            write!(text, "{} {} ", response.status, response.code)?;
            push_bytes(text, from_last(response.body.as_slice(), b"4.sync,"))?;
        }
        Shown::Status => write!(text, "{} {} | ", response.status, response.code)?,
        Shown::Text => write!(text, "{} | ", str::from_utf8(&answered.text)?)?,
    }
    Ok(())
}

fn push_bytes(text: &mut String, bytes: &[u8]) -> Result<()> {
    text.push('[')?;
    push_escaped(text, bytes)?;
    text.push_str("] | ")?;
    Ok(())
}
