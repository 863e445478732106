//! Two reads of one tunnel at once.

use crate::exchange::exchange;
use crate::service::Service;
use crate::steps::{begun, request_of};
use anyhow::{Context, Result};
use http_tunnel::Tunnel;
use id_table::LockedShelf;
use std::alloc::Global;
use std::str;
use std::sync::Wait;
use std::thread::{Threads, for_each_mut};
use try_doors::Session;
use try_words::split_at_first;

// How many threads there may be at once.
const THREADS: usize = 3;

// How often each reader reads.
const READS: u32 = 100;

// A thread's part, and what it gathers.
#[derive(Drop)]
enum Part {
    // The host says so many letters.
    Host(Session, u32),
    // Reads of these tunnels, with the bodies of its reads behind each other.
    Reader(LockedShelf<Tunnel>, Vec<u8>),
}

/// How many frames two threads, which read one tunnel at once while the host says so many letters, were given by all
/// their reads and one more, and whether each came once.
pub fn two_reads<R: Threads + Wait + Copy + Send + Sync + 'static>(
    rt: &R,
    alloc: Global,
    input: &str,
) -> Result<String> {
    let letters = input.parse::<u32>()?;
    let mut service = begun(rt, alloc, "control")?;
    let text = text_read(rt, alloc, &mut service, letters)?;
    told(alloc, &text)
}

// The bodies of all reads behind each other, those of the threads and one more.
fn text_read<R: Threads + Wait + Copy + Send + Sync + 'static>(
    rt: &R,
    alloc: Global,
    service: &mut Service,
    letters: u32,
) -> Result<Vec<u8>> {
    let mut text = threads_text(rt, alloc, service, letters)?;
    read_into(rt, alloc, service, &mut text)?;
    Ok(text)
}

fn threads_text<R: Threads + Wait + Copy + Send + Sync + 'static>(
    rt: &R,
    alloc: Global,
    service: &mut Service,
    letters: u32,
) -> Result<Vec<u8>> {
    let mut parts = parts_of(alloc, service, letters)?;
    run_all(rt, alloc, &mut parts);
    texts_of(alloc, &parts)
}

fn texts_of(alloc: Global, parts: &[Part]) -> Result<Vec<u8>> {
    let mut text = Vec::new(alloc);
    for part in parts {
        text.extend_from_slice(text_of(part))?;
    }
    Ok(text)
}

// The host, and two readers.
fn parts_of(alloc: Global, service: &mut Service, letters: u32) -> Result<Vec<Part>> {
    let mut parts = Vec::new(alloc);
    push_host(&mut parts, service, letters)?;
    push_reader(alloc, &mut parts, &service.tunnels)?;
    push_reader(alloc, &mut parts, &service.tunnels)?;
    Ok(parts)
}

fn push_host(parts: &mut Vec<Part>, service: &mut Service, letters: u32) -> Result<()> {
    let session = service.door.forget().context("no session")?;
    parts.push(Part::Host(session, letters))?;
    Ok(())
}

fn push_reader(alloc: Global, parts: &mut Vec<Part>, tunnels: &LockedShelf<Tunnel>) -> Result<()> {
    parts.push(Part::Reader(tunnels.another(), Vec::new(alloc)))?;
    Ok(())
}

fn text_of(part: &Part) -> &[u8] {
    match part {
        Part::Host(..) => b"",
        Part::Reader(_, text) => text,
    }
}

// All do their part at once, each in a thread of its own.
fn run_all<R: Threads + Wait + Copy + Send + Sync + 'static>(
    rt: &R,
    alloc: Global,
    parts: &mut [Part],
) {
    for_each_mut(
        rt,
        parts,
        THREADS,
        &|_index, part: &mut Part| { work(rt, alloc, part) },
    );
}

fn work<R: Threads + Wait + Copy + Send + 'static>(rt: &R, alloc: Global, part: &mut Part) {
    match part {
        Part::Host(session, letters) => {
            for _ in 0..*letters {
                let _ = session.say(rt, alloc, b'A');
            }
        }
        Part::Reader(tunnels, text) => {
            if let Ok(mut service) = Service::over(alloc, tunnels) {
                read_often(rt, alloc, &mut service, text);
            }
        }
    }
}

fn read_often<R: Threads + Wait + Copy + Send + 'static>(
    rt: &R,
    alloc: Global,
    service: &mut Service,
    text: &mut Vec<u8>,
) {
    for _ in 0..READS {
        let _ = read_into(rt, alloc, service, text);
    }
}

// Reads once.
fn read_into<R: Threads + Wait + Copy + Send + 'static>(
    rt: &R,
    alloc: Global,
    service: &mut Service,
    text: &mut Vec<u8>,
) -> Result<()> {
    let target = "/tunnel?read:10111213-1415-4617-9819-1a1b1c1d1e1f";
    let bytes = request_of(alloc, "GET", target, b"")?;
    let answered = exchange(rt, alloc, service, &bytes, bytes.len())?.context("no answer")?;
    text.extend_from_slice(answered.response.body.as_slice())?;
    Ok(())
}

// How many frames a text has, by their stamps, and whether these are the numbers from 1 on.
fn told(alloc: Global, text: &[u8]) -> Result<String> {
    let mut stamps = stamps(alloc, text)?;
    stamps.sort()?;
    let mut next = 1;
    for stamp in &stamps {
        if *stamp != next {
            return Ok(format!(in alloc; "{stamp} in the place of {next}")?);
        }
        next = next.saturating_add(1);
    }
    let count = stamps.len();
    Ok(format!(in alloc; "{count} frames, each once")?)
}

// The stamps of the `sync` instructions of a text.
fn stamps(alloc: Global, text: &[u8]) -> Result<Vec<u64>> {
    let mut stamps = Vec::new(alloc);
    let mut rest = text;
    for _ in 0..text.len() {
        let Some((_, behind)) = split_at_first(rest, b"4.sync,") else {
            break;
        };
        let (element, after) = split_at_first(behind, b";").context("no end")?;
        let (_, digits) = split_at_first(element, b".").context("no stamp")?;
        stamps.push(str::from_utf8(digits)?.parse::<u64>()?)?;
        rest = after;
    }
    Ok(stamps)
}
