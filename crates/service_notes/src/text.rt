//! A note as text.

use crate::line::MOST;
use log::kv::Source;
use log::span::Spans;
use log::{Line, Record};
use std::alloc::{AllocError, Global};
use std::fmt::Display;

/// The time, and what `log` shows of a record: its level, target and message, and its pairs. No character of it ends the
/// line or steers a terminal: in the place of a control character stands its escape.
pub(crate) fn text_line<D: Display, K: Source, S: Spans>(
    alloc: Global,
    time: &str,
    record: &Record<'_, D, K, S>,
) -> Result<String, AllocError> {
    let told = format!(in alloc; "{time} {}", Line::new(record))?;
    let mut line = String::new(alloc);
    for sign in told.chars().take(MOST) {
        push_plain(&mut line, sign)?;
    }
    line.push('\n')?;
    Ok(line)
}

// Adds a character, or the escape of one that isn't shown.
fn push_plain(line: &mut String, sign: char) -> Result<(), AllocError> {
    if !sign.is_control() {
        return line.push(sign);
    }
    for part in sign.escape_default() {
        line.push(part)?;
    }
    Ok(())
}
