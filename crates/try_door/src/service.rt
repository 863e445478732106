//! Clients at the door of the service, in turn, over a table and a helper in memory.

ghost use Rattle.service_door.specs.Sessions.{NoneLent};

use crate::calls::{DRAW, ROOM, sink, source};
use anyhow::{Context, Result};
use gate_model::Faces;
use gate_outside::{
    Helper, MemBell, MemClock, MemDialer, MemDice, MemHelper, MemSink, MemSource, MemSpawner,
};
use guac_handshake::{Door, greet};
use id_table::{PlainShelf, Shelf};
use service_door::{ServiceDoor, Session};
use std::alloc::Global;
use std::sync::Wait;
use std::thread::Threads;
use try_words::{bytes_of, push_escaped};

// Which start of a job is refused, and which dial fails, counted from 1; 0 for none.
#[derive(Clone, Copy)]
struct Faults {
    start: u64,
    dial: u64,
}

/// What the last client is written. Before the clients, which ` | ` separates, stand the numbers of the start of a job
/// that is refused and of the dial that fails, counted from 1, 0 for none.
pub fn answer<R: Threads + Wait + Copy + Send + 'static>(
    rt: &R,
    alloc: Global,
    input: &str,
) -> Result<String> {
    let (start, rest) = input.split_once(' ').context("no start")?;
    let (dial, rest) = rest.split_once(' ').context("no dial")?;
    let start = start.parse::<u64>()?;
    let dial = dial.parse::<u64>()?;
    let clients = clients_of(alloc, rest)?;
    let written = answers(rt, alloc, &clients, Faults { start, dial })?;
    escaped(alloc, &written)
}

fn clients_of(alloc: Global, input: &str) -> Result<Vec<Vec<u8>>> {
    let mut clients = Vec::new(alloc);
    for client in input.split(" | ") {
        clients.push(bytes_of(alloc, client)?)?;
    }
    Ok(clients)
}

fn escaped(alloc: Global, bytes: &[u8]) -> Result<String> {
    let mut text = String::new(alloc);
    push_escaped(&mut text, bytes)?;
    Ok(text)
}

// Each host that is dialed says nothing and ends, so that a session is closed by the time its creator is ready.
fn answers<R: Threads + Wait + Copy + Send + 'static>(
    rt: &R,
    alloc: Global,
    clients: &[Vec<u8>],
    faults: Faults,
) -> Result<Vec<u8>> {
    let mut helper = helper(alloc, clients.len(), faults)?;
    with_helper(rt, alloc, clients, &mut helper)
}

// What the last client is written by a door without sessions.
fn with_helper<R: Threads + Wait + Copy + Send + 'static, H: Helper>(
    rt: &R,
    alloc: Global,
    clients: &[Vec<u8>],
    helper: &mut H,
) -> Result<Vec<u8>> {
    let mut sessions = PlainShelf::new(alloc);
    at_door(rt, alloc, clients, &mut sessions, helper)
}

// What the last client is written by a door over these sessions.
fn at_door<R: Threads + Wait + Copy + Send + 'static, T: Shelf<Session>, H: Helper>(
    rt: &R,
    alloc: Global,
    clients: &[Vec<u8>],
    sessions: &mut T,
    helper: &mut H,
) -> Result<Vec<u8>>
    requires { NoneLent (T.told sessions.old) }
{
    let bell = MemBell::new();
    let mut door = ServiceDoor::new(sessions, helper, &bell, None, Faces::Ascii);
    greet_all(rt, alloc, clients, &mut door)
}

// What the last client is written.
fn greet_all<R: Threads + Wait + Copy + Send + 'static, D: Door>(
    rt: &R,
    alloc: Global,
    clients: &[Vec<u8>],
    door: &mut D,
) -> Result<Vec<u8>> {
    let mut written = Vec::new(alloc);
    for client in clients {
        written = greet_one(rt, alloc, client, door)?;
    }
    Ok(written)
}

// What a client is written.
fn greet_one<R: Threads + Wait + Copy + Send + 'static, D: Door>(
    rt: &R,
    alloc: Global,
    client: &[u8],
    door: &mut D,
) -> Result<Vec<u8>> {
    let mut from = source(alloc, client, 7, 0)?;
    let mut to = sink(alloc, ROOM, 0)?;
    let mut rest = Vec::new(alloc);
    let _ = greet(rt, alloc, &mut from, &mut to, &mut rest, door);
    Ok(to.written().to_vec(alloc)?)
}

// A helper that dials so often, with as many others for the clocks of the sessions.
fn helper(alloc: Global, dials: usize, faults: Faults) -> Result<MemHelper> {
    let links = links(alloc, dials)?;
    let others = others(alloc, dials)?;
    let dialer = MemDialer::new(links, [faults.dial].to_vec(alloc)?);
    part(alloc, dialer, faults.start, others)
}

fn links(alloc: Global, count: usize) -> Result<Vec<(MemSource, MemSink)>> {
    let mut links = Vec::new(alloc);
    for _ in 0..count {
        links.push((source(alloc, &[], 1, 0)?, sink(alloc, 64, 0)?))?;
    }
    Ok(links)
}

fn others(alloc: Global, count: usize) -> Result<Vec<MemHelper>> {
    let mut others = Vec::new(alloc);
    for _ in 0..count {
        others.push(other(alloc)?)?;
    }
    Ok(others)
}

fn other(alloc: Global) -> Result<MemHelper> {
    let dialer = MemDialer::new(Vec::new(alloc), Vec::new(alloc));
    part(alloc, dialer, 0, Vec::new(alloc))
}

fn part(alloc: Global, dialer: MemDialer, start: u64, others: Vec<MemHelper>) -> Result<MemHelper> {
    let spawner = MemSpawner::new([start].to_vec(alloc)?);
    let clock = MemClock::new([0].to_vec(alloc)?);
    let dice = MemDice::new([DRAW].to_vec(alloc)?);
    Ok(MemHelper::new(dialer, spawner, clock, dice, others))
}
