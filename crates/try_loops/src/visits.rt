//! A connection of a viewer, of whose writes one fails.

use crate::links::sink;
use crate::users::{HERE, VISIT, door, end_of};
use anyhow::{Result, bail};
use gate_model::Asked;
use guac_handshake::Door;
use shared_desk::{ReadAnswer, ReaderPass};
use std::alloc::Global;
use std::sync::Wait;
use std::thread::Threads;
use try_doors::OneDoor;
use user_serve::{IntakeEnd, OutletEnd, UserEnd, Visit};

// More runs than a visit has writes.
const MOST: u64 = 1000;

// The most bytes of a sink, and how many it takes at once.
const ROOM: usize = 4096;

const PIECE: usize = 7;

// The answers of a greeting (the Guacamole manual, "The Guacamole protocol"): 36 and 16 bytes, in 6 and 3 writes.
// Behind them comes the picture of a blank screen of 2 by 1, whose 10 instructions have 302 bytes: 44 writes. The
// session is fed nothing during the visit, so that nothing else is written.
const ARGS: &[u8] = b"4.args,13.VERSION_1_1_0,9.read-only;";

const READY: &[u8] = b"5.ready,5.$here;";

// The sync of the second feed: a session begins with the stamp 1, and each feed at the moment 0 has the next.
const SYNC: &[u8] = b"4.sync,1.3;";

// How a visit ended: by a fault of the greeting, by one of the outlet, or with all written.
#[derive(Clone, Copy, PartialEq, Eq)]
enum End {
    Greeting,
    Outlet,
    Whole,
}

// What came of a run: how many answers of the greeting were written whole, how often the door was given a place, and
// whether the other viewer then read through the newest stamp.
#[derive(Clone, Copy)]
struct Outcome {
    end: End,
    answers: u32,
    given: u64,
    newest: bool,
}

// How many runs ended with a fault, and of how many the place was never given, or once, as it is to be.
#[derive(Clone, Copy)]
struct Counts {
    faults: u32,
    never: u32,
    once: u32,
    newest: u32,
}

/// Write k of a visit fails, for each k: how many runs end by that fault, in how many of them `args` wasn't written
/// whole and the door was never given a place, in how many it was written and the door was given the place once, and
/// in how many the other viewer is as new as the session. The run behind them writes all.
pub fn failing_writes<R>(rt: &R, alloc: Global) -> Result<String>
where
    R: Threads + Wait + Copy + Send + Sync + 'static,
{
    let mut counts = Counts {
        faults: 0,
        never: 0,
        once: 0,
        newest: 0,
    };
    for fail in 1..MOST {
        let run = run(rt, alloc, fail)?;
        if run.end == End::Whole {
            return told(alloc, counts, run);
        }
        count(&mut counts, run);
    }
    bail!("each run has a fault")
}

fn count(counts: &mut Counts, run: Outcome) {
    counts.faults = counts.faults.saturating_add(1);
    counts.never = counts.never.saturating_add(u32::from(is_never(run)));
    counts.once = counts.once.saturating_add(u32::from(is_once(run)));
    counts.newest = counts.newest.saturating_add(u32::from(run.newest));
}

// Whether the greeting ended within its first answer, and the door was given nothing.
fn is_never(run: Outcome) -> bool {
    run.end == End::Greeting && run.answers == 0 && run.given == 0
}

// Whether the visit ended as what was written wants it, behind the first answer, and the door was given one place.
fn is_once(run: Outcome) -> bool {
    let ended = match run.end {
        End::Greeting => run.answers == 1,
        End::Outlet | End::Whole => run.answers == 2,
    };
    ended && run.given == 1
}

fn told(alloc: Global, counts: Counts, last: Outcome) -> Result<String> {
    if !(is_once(last) && last.newest) {
        bail!("a visit without a fault");
    }
    let Counts {
        faults,
        never,
        once,
        newest,
    } = counts;
    Ok(format!(in alloc;
        "{faults} runs, {never} before args was whole and no place given, {once} behind it and the place given once, {newest} with the other viewer as new as the session"
    )?)
}

// A session with another viewer, to which a viewer comes whose write of this number fails.
fn run<R>(rt: &R, alloc: Global, fail: u64) -> Result<Outcome>
where
    R: Threads + Wait + Copy + Send + Sync + 'static,
{
    let (mut door, mut reader) = watched(rt, alloc)?;
    door.session()?.say(rt, alloc, b'\r')?;
    let (end, answers) = visit(rt, alloc, &mut door, fail)?;
    door.session()?.say(rt, alloc, b'A')?;
    Ok(Outcome {
        end,
        answers,
        given: door.given(),
        newest: is_newest(rt, alloc, &mut reader)?,
    })
}

// The door of a session that another viewer reads.
fn watched<R: Wait>(rt: &R, alloc: Global) -> Result<(OneDoor, ReaderPass)> {
    let mut door = door(alloc)?;
    let Ok(other) = door.join(rt, alloc, HERE, Asked::Owner) else {
        bail!("not joined");
    };
    let place = other.place;
    Ok((door, place.reader))
}

// Whether a read gives all through the sync of the second feed.
fn is_newest<R: Wait>(rt: &R, alloc: Global, reader: &mut ReaderPass) -> Result<bool> {
    let mut text = Vec::new(alloc);
    let answer = reader.read(rt, &mut text);
    let frames = matches!(
        answer,
        Ok(ReadAnswer::Frames {
            count: 2,
            stamp: 3,
            closed: false,
        })
    );
    Ok(frames && text.as_slice().ends_with(SYNC))
}

// A visit whose write of this number fails: how it ended, and how many answers of its greeting were written whole.
// Where it was served, its place is given to the door.
fn visit<R>(rt: &R, alloc: Global, door: &mut OneDoor, fail: u64) -> Result<(End, u32)>
where
    R: Threads + Wait + Copy + Send + Sync + 'static,
{
    let mut sink = sink(alloc, ROOM, PIECE, fail)?;
    let end = end_of(rt, alloc, VISIT, &mut sink, door)?;
    let answers = answers(sink.written());
    Ok((ended(rt, door, end)?, answers))
}

fn answers(written: &[u8]) -> u32 {
    match written.strip_prefix(ARGS) {
        Some(rest) => 1 + u32::from(rest.starts_with(READY)),
        None => 0,
    }
}

fn ended<R: Wait>(rt: &R, door: &mut OneDoor, end: UserEnd) -> Result<End> {
    match end {
        UserEnd::WriteFault => Ok(End::Greeting),
        UserEnd::Served(visit) => served(rt, door, visit),
        _ => bail!("neither served nor a write fault"),
    }
}

// How the outlet of a visit ended, whose place goes back.
fn served<R: Wait>(rt: &R, door: &mut OneDoor, visit: Visit) -> Result<End> {
    let Visit {
        id,
        place,
        intake,
        outlet,
    } = visit;
    door.give(rt, id.as_str(), place);
    match (intake, outlet) {
        (IntakeEnd::Disconnected, OutletEnd::WriteFault) => Ok(End::Outlet),
        (IntakeEnd::Disconnected, OutletEnd::Left) => Ok(End::Whole),
        _ => bail!("another end of a loop"),
    }
}
