//! Where `serve` notes.

use crate::saying::say;
use serve_options::LogFormat;
use service_notes::{Form, NoteLog, Queue};
use std::sync::Wait;
use std::thread;
use std::thread::Threads;
use std::time::Clock;

/// The notes of a run: how they are written, and where they wait for that.
#[derive(Clone, Copy, Drop)]
pub(crate) struct Notes {
    form: Form,
    pub(crate) queue: &'static Queue,
}

impl Notes {
    /// Notes that wait in this queue, and are written as the words of `serve` ask.
    pub(crate) fn new(format: LogFormat, queue: &'static Queue) -> Notes {
        let form = match format {
            LogFormat::Text => Form::Text,
            LogFormat::Json => Form::Json,
        };
        Notes { form, queue }
    }

    /// A log for them.
    pub(crate) fn log<R: Wait + Clock + AllocGlobal + Copy>(&self, rt: &R) -> NoteLog<R> {
        NoteLog::new(*rt, self.form, self.queue)
    }

    /// Starts the thread that writes them.
    pub(crate) fn start<R>(&self, rt: &R)
    where
        R: Threads + Wait + Clock + AllocGlobal + Eprint + Copy + Send + Drop + 'static,
    {
        let (inner, notes) = (*rt, *self);
        let writes = move || notes.queue.write_all(&inner, notes.form);
        if thread::spawn(rt, writes).is_err() {
            say(
                rt,
                "error: notes can't be written, since no thread can be had",
            );
        }
    }
}
