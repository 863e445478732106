//! A session under a mixed load.

use crate::workers::{Hand, LETTERS, ROUNDS, Worker, feed, letter, run_all, take};
use anyhow::{Context, Result, bail};
use canvas::Canvas;
use gate_model::Asked;
use shared_desk::{HostPass, ReadAnswer, ReaderPass, SenderPass};
use std::alloc::Global;
use std::sync::Wait;
use std::thread::Threads;
use try_canvases::{is_alike, played};
use try_sessions::{Screen, joined, opened};

// The keysyms of the first letters of the two typists: the letters up to m, and from n on.
const FIRST: [u32; 2] = [0x61, 0x6e];

// How many read.
const RECORDERS: u32 = 3;

// How many takes empty what waits for the host.
const TAKES: u32 = 1000;

/// Eight threads feed, take, read, type, let join and leave at once. Afterwards each reader sees what one who joins
/// last sees, and the bytes taken are the letters of each typist, in order, and whole answers to the host, in order:
/// how many calls were answered as they should be, how many canvases are the same, and whether the bytes are so.
pub fn eight_threads<R: Threads + Wait + Sync>(rt: &R, alloc: Global) -> Result<String> {
    let mut workers = eight_workers(rt, alloc)?;
    run_all(rt, alloc, &mut workers);
    let threads = workers.len();
    let calls = answered(&workers);
    let Left { texts, bytes, host } = left_after(rt, alloc, workers)?;
    let canvases = texts.len();
    let alike = alike(alloc, &texts, &last_seen(rt, alloc, host)?)?;
    let order = in_order(&bytes, &answers(rt, alloc)?);
    Ok(format!(in alloc;
        "{threads} threads, {calls} calls, {alike} of {canvases} canvases as the last joiner sees, bytes in order: {order}"
    )?)
}

fn eight_workers<R: Wait>(rt: &R, alloc: Global) -> Result<Vec<Worker>> {
    let mut host = opened(alloc, Screen::Wide)?;
    let mut workers = Vec::new(alloc);
    add_link(alloc, &mut host, &mut workers)?;
    for first in FIRST {
        add_typist(rt, alloc, &mut host, &mut workers, first)?;
    }
    for _ in 0..RECORDERS {
        add_recorder(rt, alloc, &mut host, &mut workers)?;
    }
    workers.push(Worker::new(Hand::Host(host)))?;
    Ok(workers)
}

// One that feeds, and one that takes.
fn add_link(alloc: Global, host: &mut HostPass, workers: &mut Vec<Worker>) -> Result<()> {
    let Some((link, sender)) = host.link() else {
        bail!("no link");
    };
    workers.push(Worker::new(Hand::Feeder(link)))?;
    workers.push(Worker::new(Hand::Taker(sender, Vec::new(alloc))))?;
    Ok(())
}

// One that types from this letter on, for a viewer that joins.
fn add_typist<R: Wait>(
    rt: &R,
    alloc: Global,
    host: &mut HostPass,
    workers: &mut Vec<Worker>,
    first: u32,
) -> Result<()> {
    let Ok((place, _first)) = joined(rt, alloc, host, Asked::Owner) else {
        bail!("not joined");
    };
    workers.push(Worker::new(Hand::Typist(place.writer, first)))?;
    Ok(())
}

// One that reads for a recorder that joins: it is never held, so that nobody need acknowledge what it is given.
fn add_recorder<R: Wait>(
    rt: &R,
    alloc: Global,
    host: &mut HostPass,
    workers: &mut Vec<Worker>,
) -> Result<()> {
    let Ok((place, first)) = joined(rt, alloc, host, Asked::Keep) else {
        bail!("not joined");
    };
    workers.push(Worker::new(Hand::Reader(place.reader, first.into_inner())))?;
    Ok(())
}

// How many calls were answered as they should be.
fn answered(workers: &[Worker]) -> u32 {
    let mut answered = 0u32;
    for worker in workers {
        answered = answered.saturating_add(worker.answered);
    }
    answered
}

// What was gathered, once all threads have ended and nothing is left to be read or taken.
#[derive(Drop)]
struct Left {
    texts: Vec<Vec<u8>>,
    bytes: Vec<u8>,
    host: Option<HostPass>,
}

// Reads and takes what is left.
fn left_after<R: Wait>(rt: &R, alloc: Global, workers: Vec<Worker>) -> Result<Left> {
    let mut gathered = Left {
        texts: Vec::new(alloc),
        bytes: Vec::new(alloc),
        host: None,
    };
    for worker in workers {
        let Worker { hand, answered: _ } = worker;
        gather(rt, hand, &mut gathered)?;
    }
    Ok(gathered)
}

fn gather<R: Wait>(rt: &R, hand: Hand, gathered: &mut Left) -> Result<()> {
    match hand {
        Hand::Reader(mut pass, mut text) => {
            read_on(rt, &mut pass, &mut text);
            gathered.texts.push(text)?;
        }
        Hand::Taker(mut pass, mut bytes) => {
            take_on(rt, &mut pass, &mut bytes);
            gathered.bytes = bytes;
        }
        Hand::Host(host) => gathered.host = Some(host),
        Hand::Feeder(_pass) => {}
        Hand::Typist(_pass, _first) => {}
    }
    Ok(())
}

// Reads until nothing is left to be given, at most so often.
fn read_on<R: Wait>(rt: &R, pass: &mut ReaderPass, text: &mut Vec<u8>) {
    for _ in 0..ROUNDS {
        match pass.read(rt, text) {
            Ok(ReadAnswer::Frames { .. } | ReadAnswer::Fresh { .. }) => {}
            _ => return,
        }
    }
}

// Takes until nothing waits, at most so often.
fn take_on<R: Wait>(rt: &R, pass: &mut SenderPass, bytes: &mut Vec<u8>) {
    for _ in 0..TAKES {
        match take(rt, pass, bytes) {
            None | Some(0) => return,
            Some(_) => {}
        }
    }
}

// What one who joins now sees.
fn last_seen<R: Wait>(rt: &R, alloc: Global, host: Option<HostPass>) -> Result<Canvas> {
    let mut host = host.context("no host")?;
    let Ok((_place, last)) = joined(rt, alloc, &mut host, Asked::View) else {
        bail!("not joined");
    };
    played(alloc, last.as_slice())
}

// How many of the texts show this.
fn alike(alloc: Global, texts: &[Vec<u8>], wanted: &Canvas) -> Result<usize> {
    let mut count = 0usize;
    for text in texts {
        count = count.saturating_add(shows(alloc, text, wanted)?);
    }
    Ok(count)
}

// 1 where the text shows this, and else 0.
fn shows(alloc: Global, text: &[u8], wanted: &Canvas) -> Result<usize> {
    let canvas = played(alloc, text)?;
    Ok(usize::from(is_alike(&canvas, wanted)))
}

// What the host is answered in a session of one thread.
fn answers<R: Wait>(rt: &R, alloc: Global) -> Result<Vec<u8>> {
    let mut host = opened(alloc, Screen::Wide)?;
    let Some((mut link, mut sender)) = host.link() else {
        bail!("no link");
    };
    for round in 0..ROUNDS {
        let _ = feed(rt, alloc, &mut link, round);
    }
    let mut bytes = Vec::new(alloc);
    take_on(rt, &mut sender, &mut bytes);
    Ok(bytes)
}

// Whether the bytes are each typist's letters in order, and between them these answers, each whole and in order.
// A report of the cursor has no small letter.
fn in_order(bytes: &[u8], answers: &[u8]) -> bool {
    let rest = bytes.iter().filter(|byte| !byte.is_ascii_lowercase());
    FIRST.iter().all(|first| is_typed(bytes, *first))
        && rest.eq(answers.iter())
        && bytes.windows(2).all(|pair| is_beside(pair))
}

// Whether the letters from this on are all those that its typist typed, in order.
fn is_typed(bytes: &[u8], first: u32) -> bool {
    let typed = bytes
        .iter()
        .map(|byte| u32::from(*byte))
        .filter(|letter| letter.wrapping_sub(first) < LETTERS);
    typed.eq((0..ROUNDS).map(|round| letter(first, round)))
}

// Whether no letter stands within a report: before it stands a letter or the end of a report, and behind it a letter
// or the beginning of one.
fn is_beside(pair: &[u8]) -> bool {
    match *pair {
        [first, second] => {
            let letters = (first.is_ascii_lowercase(), second.is_ascii_lowercase());
            match letters {
                (true, true) | (false, false) => true,
                (true, false) => second == 0x1b,
                (false, true) => first == b'R',
            }
        }
        _ => true,
    }
}
