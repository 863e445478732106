//! Services in which one dial fails or one start of a job is refused, and what each client met: the one that the fault
//! meets is refused, and the next is served.

use crate::gate::JOIN;
use crate::memory::{
    Faults, Given, LAST, Missed, Moment, RowNet, RowSink, RowSource, none_missed, nothing_given,
};
use crate::rows::tell_status;
use anyhow::{Context, Result};
use std::alloc::Global;
use std::str;
use std::sync::Wait;
use std::sync::atomic::Ordering::SeqCst;
use std::thread::Threads;
use std::time::Clock;
use try_services::served;

// What a client sends that begins a session of 2 columns and 1 row.
const GREET: &[u8] =
    b"6.select,6.telnet;4.size,2.16,2.16,2.96;7.connect,13.VERSION_1_1_0,1.h,0.,0.,0.,7.control;";

// A request for a tunnel to a session of that size, which begins.
const CONNECT: &[u8] =
    b"POST /tunnel?connect HTTP/1.1\r\nContent-Length: 29\r\n\r\nhostname=h&width=16&height=16";

// A request for a tunnel to the session of the ID that is drawn first.
const JOIN_CONNECT: &[u8] =
    b"POST /tunnel?connect HTTP/1.1\r\nContent-Length: 40\r\n\r\nid=$00010203-0405-4607-8809-0a0b0c0d0e0f";

/// No dial fails, and then the first, the second and the third: three clients that begin a session, and three requests
/// that do.
pub fn dials<R>(rt: &R, alloc: Global) -> Result<()>
where
    R: Print + Clock + Eprint + Threads + Wait + Copy + Send + Sync + Drop + 'static,
{
    for dial in 0..=3 {
        tell_dial(rt, alloc, dial, "", &[GREET, GREET, GREET])?;
    }
    for dial in 0..=3 {
        tell_dial(rt, alloc, dial, ", over HTTP", &[CONNECT, CONNECT, CONNECT])?;
    }
    Ok(())
}

fn tell_dial<R>(rt: &R, alloc: Global, dial: u64, over: &str, clients: &[&[u8]]) -> Result<()>
where
    R: Print + Clock + Eprint + Threads + Wait + Copy + Send + Sync + Drop + 'static,
{
    let title = if dial == 0 {
        format!(in alloc; "no dial fails{over}")?
    } else {
        format!(in alloc; "dial {dial} fails{over}")?
    };
    tell_run(rt, alloc, &title, Faults { dial, start: 0 }, clients)
}

/// No start is refused, and then each of the seven: a client that begins a session, one that joins the session of the
/// ID that is drawn first, and one that begins a session; and such requests. A connection is started, and then the two
/// jobs of the session that it begins.
pub fn starts<R>(rt: &R, alloc: Global) -> Result<()>
where
    R: Print + Clock + Eprint + Threads + Wait + Copy + Send + Sync + Drop + 'static,
{
    for start in 0..=7 {
        tell_start(rt, alloc, start, "", &[GREET, JOIN, GREET])?;
    }
    for start in 0..=7 {
        tell_start(
            rt,
            alloc,
            start,
            ", over HTTP",
            &[CONNECT, JOIN_CONNECT, CONNECT],
        )?;
    }
    Ok(())
}

fn tell_start<R>(rt: &R, alloc: Global, start: u64, over: &str, clients: &[&[u8]]) -> Result<()>
where
    R: Print + Clock + Eprint + Threads + Wait + Copy + Send + Sync + Drop + 'static,
{
    let title = if start == 0 {
        format!(in alloc; "no start is refused{over}")?
    } else {
        format!(in alloc; "start {start} is refused{over}")?
    };
    tell_run(rt, alloc, &title, Faults { dial: 0, start }, clients)
}

// Tells how a service with these faults ended, and what each of its clients met.
fn tell_run<R>(rt: &R, alloc: Global, title: &str, faults: Faults, clients: &[&[u8]]) -> Result<()>
where
    R: Print + Clock + Eprint + Threads + Wait + Copy + Send + Sync + Drop + 'static,
{
    let given = nothing_given_to(alloc, clients.len())?;
    let missed = none_missed(alloc)?;
    serve_all(rt, alloc, title, faults, clients, &given, &missed)?;
    tell_all(rt, &given)?;
    let missed = missed.load(SeqCst);
    if missed != 0 {
        println!(rt; "| {missed} moments missed")?;
    }
    Ok(())
}

fn nothing_given_to(alloc: Global, count: usize) -> Result<Vec<Given>> {
    let mut all = Vec::new(alloc);
    for _ in 0..count {
        all.push(nothing_given(alloc)?)?;
    }
    Ok(all)
}

fn serve_all<R>(
    rt: &R,
    alloc: Global,
    title: &str,
    faults: Faults,
    clients: &[&[u8]],
    given: &[Given],
    missed: &Missed,
) -> Result<()>
where
    R: Print + Clock + Eprint + Threads + Wait + Copy + Send + Sync + Drop + 'static,
{
    let mut net = RowNet::new(*rt, alloc)?;
    net.fail(faults);
    for (client, given) in clients.iter().rev().zip(given.iter().rev()) {
        precede(rt, alloc, client, given, missed, &mut net)?;
    }
    tell_status(rt, title, served(rt, alloc, net, &["--log", "error"])?)
}

// Adds a client before all others. One that is served ends once it was given its last instruction.
fn precede<R>(
    rt: &R,
    alloc: Global,
    client: &[u8],
    given: &Given,
    missed: &Missed,
    net: &mut RowNet<R>,
) -> Result<()>
where
    R: Clock + Wait + Copy + Send + Drop + 'static,
{
    let last = Moment::new(given, LAST, missed)?;
    let source = RowSource::new(*rt, alloc, client, None, Some(last))?;
    net.precede(source, RowSink::new(*rt, given, None)?)
}

fn tell_all<R: Print + Wait>(rt: &R, given: &[Given]) -> Result<()> {
    for given in given {
        let given = given.lock(rt);
        tell_met(rt, given.as_slice())?;
    }
    Ok(())
}

// What a client met. Of a picture stands here what comes before and its end, of a response its first line, its body and
// its code.
fn tell_met<R: Print>(rt: &R, given: &[u8]) -> Result<()> {
    let text = str::from_utf8(given).ok().context("no text")?;
    if text.starts_with("HTTP/1.1 ") {
        return tell_answer(rt, text);
    }
    let Some((greeting, _)) = text.split_once("4.size,") else {
        println!(rt; "| {text}")?;
        return Ok(());
    };
    let at = text.len().saturating_sub(25);
    println!(rt; "| {greeting} .. {}", text.get(at..).context("no end")?)?;
    Ok(())
}

fn tell_answer<R: Print>(rt: &R, text: &str) -> Result<()> {
    let (head, body) = text.split_once("\r\n\r\n").context("no head")?;
    let (status, fields) = head.split_once("\r\n").context("no status")?;
    let code = fields
        .split("\r\n")
        .find(|line| line.starts_with("Guacamole-Status-Code: "))
        .unwrap_or("no code");
    println!(rt; "| {status} [{body}] {code}")?;
    Ok(())
}
