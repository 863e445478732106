//! Whole runs of the service over a net in memory.

use crate::memory::{Given, LAST, Moment, RowNet, RowSink, RowSource, none_missed, nothing_given};
use anyhow::{Context, Result};
use std::alloc::Global;
use std::str;
use std::sync::Wait;
use std::thread::Threads;
use std::time::Clock;
use try_services::{colours, served};

/// What a client sends that begins a session of 80 columns and 24 rows, with the sharing `control`.
pub const GREETING: &[u8] =
    b"6.select,6.telnet;4.size,3.640,3.384,2.96;7.connect,13.VERSION_1_1_0,9.localhost,2.23,0.,0.,7.control;";

const OTHER: &[u8] = b"GET /other HTTP/1.1\r\n\r\n";

const CONNECT: &[u8] =
    b"POST /tunnel?connect HTTP/1.1\r\nContent-Length: 26\r\n\r\nhostname=localhost&port=23";

const READ: &[u8] = b"GET /tunnel?read:10111213-1415-4617-9819-1a1b1c1d1e1f HTTP/1.1\r\n\r\n";

/// A viewer whose session ends, and then a request for another path.
pub fn daemon<R>(rt: &R, alloc: Global) -> Result<()>
where
    R: Print + Clock + Eprint + Threads + Wait + Copy + Send + Sync + Drop + 'static,
{
    let other = nothing_given(alloc)?;
    visited(rt, alloc, &other)?;
    tell_response(rt, &other)
}

// Tells how the service ended, and what the viewer was given.
fn visited<R>(rt: &R, alloc: Global, other: &Given) -> Result<()>
where
    R: Print + Clock + Eprint + Threads + Wait + Copy + Send + Sync + Drop + 'static,
{
    let viewer = nothing_given(alloc)?;
    serve_both(rt, alloc, &viewer, other)?;
    tell_viewer(rt, alloc, &viewer)
}

fn serve_both<R>(rt: &R, alloc: Global, viewer: &Given, other: &Given) -> Result<()>
where
    R: Print + Clock + Eprint + Threads + Wait + Copy + Send + Sync + Drop + 'static,
{
    let mut net = RowNet::new(*rt, alloc)?;
    let sink = RowSink::new(*rt, other, None)?;
    net.precede(RowSource::new(*rt, alloc, OTHER, None, None)?, sink)?;
    let last = Moment::new(viewer, LAST, &none_missed(alloc)?)?;
    let sink = RowSink::new(*rt, viewer, None)?;
    net.precede(
        RowSource::new(*rt, alloc, GREETING, None, Some(last))?,
        sink,
    )?;
    tell_status(rt, "the daemon", served(rt, alloc, net, &[])?)
}

/// A request for a tunnel; and a read of it where there is none.
pub fn connects<R>(rt: &R, alloc: Global) -> Result<()>
where
    R: Print + Clock + Eprint + Threads + Wait + Copy + Send + Sync + Drop + 'static,
{
    for (title, request) in [("a connect", CONNECT), ("a read", READ)] {
        answered(rt, alloc, title, request)?;
    }
    Ok(())
}

fn answered<R>(rt: &R, alloc: Global, title: &str, request: &[u8]) -> Result<()>
where
    R: Print + Clock + Eprint + Threads + Wait + Copy + Send + Sync + Drop + 'static,
{
    let given = nothing_given(alloc)?;
    serve_one(rt, alloc, title, request, &given)?;
    tell_response(rt, &given)
}

fn serve_one<R>(rt: &R, alloc: Global, title: &str, request: &[u8], given: &Given) -> Result<()>
where
    R: Print + Clock + Eprint + Threads + Wait + Copy + Send + Sync + Drop + 'static,
{
    let mut net = RowNet::new(*rt, alloc)?;
    let sink = RowSink::new(*rt, given, None)?;
    net.precede(RowSource::new(*rt, alloc, request, None, None)?, sink)?;
    tell_status(rt, title, served(rt, alloc, net, &[])?)
}

/// Tells the status with which a service ended.
pub fn tell_status<R: Print>(rt: &R, title: &str, status: u8) -> Result<()> {
    println!(rt; "{title}: the service ended with {status}")?;
    Ok(())
}

fn tell_viewer<R: Print + Wait>(rt: &R, alloc: Global, given: &Given) -> Result<()> {
    let given = given.lock(rt);
    tell_given(rt, alloc, given.as_slice())
}

// What the viewer was greeted with, two points of what it is shown, and what it was given last.
fn tell_given<R: Print>(rt: &R, alloc: Global, given: &[u8]) -> Result<()> {
    tell_picture(rt, alloc, given)?;
    let text = str::from_utf8(given).ok().context("no text")?;
    let at = text.len().saturating_sub(25);
    println!(rt; "| {}", text.get(at..).context("no end")?)?;
    Ok(())
}

/// What a viewer was greeted with, and two points of what it is shown.
pub fn tell_picture<R: Print>(rt: &R, alloc: Global, given: &[u8]) -> Result<()> {
    let text = str::from_utf8(given).ok().context("no text")?;
    let (greeting, _) = text.split_once("4.size,").context("no picture")?;
    println!(rt; "| {greeting}")?;
    println!(rt; "| {}", colours(alloc, given)?)?;
    Ok(())
}

fn tell_response<R: Print + Wait>(rt: &R, given: &Given) -> Result<()> {
    let given = given.lock(rt);
    tell_lines(rt, given.as_slice())
}

fn tell_lines<R: Print>(rt: &R, given: &[u8]) -> Result<()> {
    let text = str::from_utf8(given).ok().context("no text")?;
    for line in text.split("\r\n") {
        println!(rt; "| {line}")?;
    }
    Ok(())
}
