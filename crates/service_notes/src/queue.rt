//! What waits to be written.

use crate::Form;
use crate::line::{line_of, time_by};
use crossbeam_channel::{Receiver, Sender, bounded};
use log::{Level, Metadata, Record};
use std::alloc::{AllocError, Global};
use std::sync::Wait;
use std::sync::atomic::AtomicU64;
use std::sync::atomic::Ordering::SeqCst;
use std::time::{Clock, Duration};
use std::{io, thread};

/// How many notes wait at most.
const MOST: usize = 1024;

/// How often it is looked whether all is written, and how long is waited between, in milliseconds: half a second in all.
const LOOKS: u32 = 50;

const BETWEEN: u64 = 10;

/// The notes that wait, how many were taken and how many are done with, and how many are lost.
#[derive(Drop)]
pub struct Queue {
    into: Sender<String>,
    out: Receiver<String>,
    taken: AtomicU64,
    done: AtomicU64,
    lost: AtomicU64,
}

impl Queue {
    /// A queue of nothing, for as long as the program runs.
    pub fn new(alloc: Global) -> Result<&'static Queue, AllocError> {
        let (into, out) = bounded(alloc, MOST)?;
        let queue = Queue {
            into,
            out,
            taken: AtomicU64::new(0),
            done: AtomicU64::new(0),
            lost: AtomicU64::new(0),
        };
        Ok(&*Box::leak(Box::new(alloc, queue)?))
    }

    /// How many notes are lost so far.
    pub fn lost(&self) -> u64 {
        self.lost.load(SeqCst)
    }

    /// Takes a line, or loses it where no room is.
    pub(crate) fn take<R: Wait>(&self, rt: &R, line: String) {
        self.taken.fetch_add(1, SeqCst);
        if self.into.try_send(rt, line).is_err() {
            self.done.fetch_add(1, SeqCst);
            self.lose();
        }
    }

    /// One more is lost.
    pub(crate) fn lose(&self) {
        self.lost.fetch_add(1, SeqCst);
    }

    /// Writes what waits and what comes to standard error, and tells how many notes were lost before. It never ends.
    pub fn write_all<R>(&self, rt: &R, format: Form)
    where
        R: Wait + Clock + AllocGlobal + Eprint,
    {
        let mut told = 0u64;
        let mut torn = false;
        for _ in rt.forever() {
            let Ok(line) = self.out.recv(rt) else {
                return;
            };
            torn = write(rt, line, torn).is_err();
            if torn {
                self.lose();
            } else {
                told = self.tell_lost(rt, format, told);
            }
            self.done.fetch_add(1, SeqCst);
        }
    }

    // Tells how many more were lost than are told, where there are any: how many are told then.
    fn tell_lost<R>(&self, rt: &R, format: Form, told: u64) -> u64
    where
        R: Clock + AllocGlobal + Eprint,
    {
        let lost = self.lost();
        if lost == told {
            return told;
        }
        let Ok(line) = lost_line(rt, format, lost.saturating_sub(told)) else {
            return told;
        };
        match rt.eprint(line) {
            Ok(()) => lost,
            Err(_) => told,
        }
    }

    /// Waits until all that was taken is written or lost, for half a second at most. Whether it is.
    pub fn settle<R: Clock>(&self, rt: &R) -> bool {
        for _ in 0..LOOKS {
            if self.done.load(SeqCst) >= self.taken.load(SeqCst) {
                return true;
            }
            thread::sleep(rt, Duration::from_millis(BETWEEN));
        }
        false
    }
}

// Writes a line. Where one was cut before it, perhaps within, that is ended first.
fn write<R: Eprint>(rt: &R, line: String, torn: bool) -> io::Result<()> {
    if torn {
        rt.eprint('\n')?;
    }
    rt.eprint(line)
}

// The line that tells of so many lost notes.
fn lost_line<R: Clock + AllocGlobal>(
    rt: &R,
    format: Form,
    lost: u64,
) -> Result<String, AllocError> {
    let metadata = Metadata::new(Level::Warn, "service_notes");
    let record = Record::new(
        metadata,
        "notes were lost, since nobody took them",
        ("lost", lost),
        (),
    );
    line_of(
        rt.alloc(),
        format,
        time_by(rt.alloc(), rt)?.as_str(),
        &record,
    )
}
