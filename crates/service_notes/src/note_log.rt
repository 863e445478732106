//! A log that holds nobody up.

ghost use Rattle.std.specs.Prelude.{[], Some, true};

use crate::line::{line_of, time_by};
use crate::{Form, Queue};
use log::kv::Source;
use log::span::Spans;
use log::{Log, Metadata, Record};
use std::alloc::AllocError;
use std::fmt::Display;
use std::sync::Wait;
use std::time::Clock;

/// A log whose notes go into a queue, as lines of one form. It notes whatever it is given.
#[derive(Clone, Copy, Drop)]
pub struct NoteLog<R: Wait> {
    rt: R,
    format: Form,
    queue: &'static Queue,
}

impl<R: Wait + Clock + AllocGlobal> NoteLog<R> {
    /// A log to this queue, whose lines have this form.
    pub fn new(rt: R, format: Form, queue: &'static Queue) -> NoteLog<R> {
        NoteLog { rt, format, queue }
    }

    // The line of a record, which is noted now.
    fn line<D: Display, K: Source, S: Spans>(
        &self,
        record: &Record<'_, D, K, S>,
    ) -> Result<String, AllocError> {
        let alloc = self.rt.alloc();
        let time = time_by(alloc, &self.rt)?;
        line_of(alloc, self.format, time.as_str(), record)
    }
}

impl<R: Wait + Clock + AllocGlobal> Log for NoteLog<R> {
    ghost enables = { λ _ _ _. Some true };

    ghost target_of = { λ _. Some [] };

    fn enabled(&self, _metadata: &Metadata<'_>) -> bool {
        true
    }

    fn log<D: Display, K: Source, S: Spans>(&self, record: &Record<'_, D, K, S>) {
        match self.line(record) {
            Ok(line) => self.queue.take(&self.rt, line),
            Err(AllocError) => self.queue.lose(),
        }
    }

    fn flush(&self) {}

    fn target(&self) -> &str {
        ""
    }
}
