//! The line of a note.

use crate::Form;
use crate::json::json_line;
use crate::text::text_line;
use jiff::Timestamp;
use log::Record;
use log::kv::Source;
use log::span::Spans;
use std::alloc::{AllocError, Global};
use std::fmt::Display;
use std::time::Clock;

/// How many characters of a value, or of a line of text, are told.
pub(crate) const MOST: usize = 1024;

/// The line of a record, with its end, as RFC 3339 has its time. Spans aren't told.
pub(crate) fn line_of<D: Display, K: Source, S: Spans>(
    alloc: Global,
    format: Form,
    time: &str,
    record: &Record<'_, D, K, S>,
) -> Result<String, AllocError> {
    match format {
        Form::Text => text_line(alloc, time, record),
        Form::Json => json_line(alloc, time, record),
    }
}

/// The time by a clock, to the millisecond (RFC 3339, in UTC), or a hyphen where it can't be read.
pub(crate) fn time_by<R: Clock>(alloc: Global, clock: &R) -> Result<String, AllocError> {
    match Timestamp::now(clock) {
        Ok(time) => format!(in alloc; "{time:.3}"),
        Err(_) => String::from_str(alloc, "-"),
    }
}
