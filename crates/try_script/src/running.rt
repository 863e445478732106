//! A row is run over memory.

use crate::row::{Ends, Row};
use crate::turns::{LineSink, LineSource, Tally};
use anyhow::{Result, anyhow};
use gate_outside::{MemSink, MemSource, Sink};
use gate_script::command;
use std::alloc::Global;
use std::cell::Cell;
use std::rc::Rc;

const ANSWERS_ROOM: usize = 1 << 20;

const FRAMES_ROOM: usize = 1 << 23;

/// What a run of a row gave.
#[derive(Drop)]
pub struct Given {
    pub status: u8,
    pub answers: Vec<u8>,
    pub frames: Vec<u8>,
}

/// What the row gives, where it isn't what it has to give.
pub fn difference(alloc: Global, row: &Row) -> Result<Option<String>> {
    if row.ends.turns > 0 {
        return late(alloc, row);
    }
    if row.frames.is_none() && row.ends.frames == 0 {
        return twice(alloc, row);
    }
    let given = run_row(alloc, row, row.ends)?;
    unmet(alloc, row, &given)
}

/// What a run of the row over these ends gives.
pub fn run_row(alloc: Global, row: &Row, ends: Ends) -> Result<Given> {
    let mut frames = sink(alloc, FRAMES_ROOM, ends.frames_piece, ends.frames)?;
    let (status, answers) = run_into(alloc, row, ends, &mut frames)?;
    Ok(Given {
        status,
        answers,
        frames: frames.written().to_vec(alloc)?,
    })
}

// The status and the answers of a run of the row over these ends, whose frames go to this sink.
fn run_into<F: Sink>(
    alloc: Global,
    row: &Row,
    ends: Ends,
    frames: &mut F,
) -> Result<(u8, Vec<u8>)> {
    let mut source = MemSource::new(
        row.input.to_vec(alloc)?,
        ends.piece.max(1),
        [ends.source].to_vec(alloc)?,
    );
    let mut answers = sink(alloc, ANSWERS_ROOM, ends.answers_piece, ends.answers)?;
    let words = row.words.as_slice();
    let status = command(alloc, words, &mut source, &mut answers, frames);
    Ok((status, answers.written().to_vec(alloc)?))
}

/// What was given, where it isn't what the row has to give.
pub fn unmet(alloc: Global, row: &Row, given: &Given) -> Result<Option<String>> {
    Ok(if given.status != row.status {
        let status = given.status;
        Some(format!(in alloc; "status {status}")?)
    } else if !row.answers.is_met(&given.answers) {
        Some(shown(alloc, "answers", &given.answers)?)
    } else if row
        .frames
        .as_ref()
        .is_some_and(|wanted| !wanted.is_met(&given.frames))
    {
        Some(shown(alloc, "frames", &given.frames)?)
    } else {
        None
    })
}

// What a run gave, with a sum over its frames, of which there may be very many.
#[derive(Drop)]
struct Tallied {
    status: u8,
    answers: Vec<u8>,
    frames: Tally,
}

// What the row gives, where its frames aren't compared with a text. It is run twice, and gives the same again.
fn twice(alloc: Global, row: &Row) -> Result<Option<String>> {
    let first = run_once(alloc, row)?;
    let second = run_once(alloc, row)?;
    Ok(if first.status != row.status {
        let status = first.status;
        Some(format!(in alloc; "status {status}")?)
    } else if !row.answers.is_met(&first.answers) {
        Some(shown(alloc, "answers", &first.answers)?)
    } else if second.answers != first.answers || second.frames != first.frames {
        Some(shown(alloc, "answers of the second run", &second.answers)?)
    } else {
        None
    })
}

// What a run of the row gives.
fn run_once(alloc: Global, row: &Row) -> Result<Tallied> {
    let mut frames = Tally { count: 0, sum: 0 };
    let (status, answers) = run_into(alloc, row, row.ends, &mut frames)?;
    Ok(Tallied {
        status,
        answers,
        frames,
    })
}

// What the row gives, where a line was read before the lines before it were answered.
fn late(alloc: Global, row: &Row) -> Result<Option<String>> {
    let answered = Rc::new(alloc, Cell::new(0))?;
    let mut source = LineSource {
        text: row.input.to_vec(alloc)?,
        at: 0,
        given: 0,
        early: 0,
        answered: answered.clone()?,
    };
    let mut answers = LineSink { answered };
    let mut frames = sink(alloc, FRAMES_ROOM, 4096, 0)?;
    let status = command(
        alloc,
        row.words.as_slice(),
        &mut source,
        &mut answers,
        &mut frames,
    );
    Ok(if status != row.status {
        Some(format!(in alloc; "status {status}")?)
    } else if source.early > 0 {
        let early = source.early;
        Some(format!(in alloc; "{early} early reads")?)
    } else {
        None
    })
}

// A sink that fails at the call with this number.
fn sink(alloc: Global, room: usize, most: usize, fail: u64) -> Result<MemSink> {
    MemSink::new(alloc, room, most.max(1), [fail].to_vec(alloc)?).map_err(|_| anyhow!("no memory"))
}

/// What was written, in one line.
pub fn shown(alloc: Global, what: &str, written: &[u8]) -> Result<String> {
    let mut line = format!(in alloc; "{what}: ")?;
    for byte in written {
        match byte {
            b'\n' => line.push_str(" / ")?,
            0x20..=0x7e => line.push(char::from(*byte))?,
            _ => write!(line, "\\x{byte:02x}")?,
        }
    }
    Ok(line)
}
