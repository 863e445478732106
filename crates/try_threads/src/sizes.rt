//! Viewers that change the size of their session.

ghost use Rattle.std.specs.Prelude.{◌≤◌};

use anyhow::{Result, bail};
use gate_model::{Asked, Cause};
use shared_desk::{HostPass, ResizeRefusal, WriterPass};
use std::alloc::Global;
use std::sync::Wait;
use std::thread::{Threads, join_mut};
use try_sessions::{Screen, joined, opened};

// How often each of two viewers changes the size at once.
const CHANGES: u32 = 50;

// A session and three of its viewers: two that may type, and one that only looks on.
#[derive(Drop)]
struct Room {
    host: HostPass,
    one: WriterPass,
    two: WriterPass,
    three: WriterPass,
}

/// Two viewers change the size of 2 by 1 in turn, and one that may only look on tries to; then one leaves, and the
/// session is closed: what each call answers, and how many entries the session has.
pub fn in_turn<R: Wait>(rt: &R, alloc: Global) -> Result<String> {
    let mut viewers = entered(rt, alloc)?;
    let mut told = String::new(alloc);
    change(rt, alloc, &mut viewers, &mut told)?;
    end(rt, alloc, &mut viewers, &mut told)?;
    let entries = viewers.host.newest();
    Ok(format!(in alloc; "{told}{entries} entries")?)
}

fn entered<R: Wait>(rt: &R, alloc: Global) -> Result<Room> {
    let mut host = opened(alloc, Screen::Small)?;
    let one = writer(rt, alloc, &mut host, Asked::Owner)?;
    let two = writer(rt, alloc, &mut host, Asked::Control)?;
    let three = writer(rt, alloc, &mut host, Asked::View)?;
    Ok(Room {
        host,
        one,
        two,
        three,
    })
}

// All change the size.
fn change<R: Wait>(rt: &R, alloc: Global, viewers: &mut Room, told: &mut String) -> Result<()> {
    tell(told, viewers.one.resize(rt, alloc, 3, 2))?;
    tell(told, viewers.two.resize(rt, alloc, 3, 2))?;
    tell(told, viewers.two.resize(rt, alloc, 512, 256))?;
    tell(told, viewers.three.resize(rt, alloc, 512, 256))?;
    tell(told, viewers.one.resize(rt, alloc, 2, 1))
}

// One has left, and the session is closed.
fn end<R: Wait>(rt: &R, alloc: Global, viewers: &mut Room, told: &mut String) -> Result<()> {
    let _ = viewers.two.leave(rt);
    tell(told, viewers.two.resize(rt, alloc, 1, 1))?;
    let _ = viewers.host.close(rt, Cause::Stopped);
    tell(told, viewers.one.resize(rt, alloc, 1, 1))
}

fn tell(told: &mut String, answer: Result<u64, ResizeRefusal>) -> Result<()> {
    write!(told, "{answer:?}, ")?;
    Ok(())
}

// The pass that writes for a viewer that joins.
fn writer<R: Wait>(rt: &R, alloc: Global, host: &mut HostPass, asked: Asked) -> Result<WriterPass> {
    let Ok((place, _first)) = joined(rt, alloc, host, asked) else {
        bail!("not joined");
    };
    Ok(place.writer)
}

/// Two viewers change the size often at once, each between two of its own: whether the session has an entry for each
/// change that was answered with its stamp.
pub fn at_once<R: Threads + Wait + Sync>(rt: &R, alloc: Global) -> Result<String> {
    let mut host = opened(alloc, Screen::Small)?;
    let mut one = writer(rt, alloc, &mut host, Asked::Owner)?;
    let mut two = writer(rt, alloc, &mut host, Asked::Control)?;
    let (a, b) = both(rt, alloc, &mut one, &mut two);
    let entries = host.newest();
    let agree = entries == 3 + u64::from(a) + u64::from(b);
    Ok(format!(in alloc; "an entry for each: {agree}")?)
}

// Changes the size at each pass, in two threads.
fn both<R: Threads + Wait + Sync>(
    rt: &R,
    alloc: Global,
    one: &mut WriterPass,
    two: &mut WriterPass,
) -> (u32, u32) {
    join_mut(
        rt,
        &mut || change_often(rt, alloc, one, 3),
        &mut || change_often(rt, alloc, two, 4),
    )
}

// How many of 50 changes were made.
fn change_often<R: Wait>(rt: &R, alloc: Global, pass: &mut WriterPass, cols: u16) -> u32
    requires { (1 ≤ cols) × (cols ≤ 512) }
{
    let mut made = 0u32;
    for change in 0..CHANGES {
        let rows = if change % 2 == 0 { 1 } else { 2 };
        if pass.resize(rt, alloc, cols, rows).is_ok() {
            made = made.saturating_add(1);
        }
    }
    made
}
