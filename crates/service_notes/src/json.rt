//! A note as an object of JSON.

use crate::line::MOST;
use log::kv::{Error, Source, VisitSource};
use log::span::Spans;
use log::{Level, Record, kv};
use serde_json::{Map, Value, put};
use std::alloc::{AllocError, Global};
use std::fmt::Display;

/// An object with the members `time`, `level` and `note`, and one for each pair of a record (RFC 8259).
pub(crate) fn json_line<D: Display, K: Source, S: Spans>(
    alloc: Global,
    time: &str,
    record: &Record<'_, D, K, S>,
) -> Result<String, AllocError> {
    let mut members = Members {
        alloc,
        held: Map::new(alloc),
    };
    members.add("time", Value::try_from_str(alloc, time)?)?;
    members.add(
        "level",
        Value::try_from_str(alloc, word_of(record.level()))?,
    )?;
    members.add("note", told(alloc, record.args())?)?;
    if record.key_values().visit(&mut members).is_err() {
        return Err(AllocError);
    }
    let Members { alloc: _, held } = members;
    let mut line = Value::from(held).to_string(alloc)?;
    line.push('\n')?;
    Ok(line)
}

// A level, as the words of `serve` have it.
fn word_of(level: Level) -> &'static str {
    match level {
        Level::Error => "error",
        Level::Warn => "warn",
        Level::Info => "info",
        Level::Debug => "debug",
        Level::Trace => "trace",
    }
}

// What is shown of a value.
fn told<D: Display>(alloc: Global, value: &D) -> Result<Value, AllocError> {
    let shown = format!(in alloc; "{value}")?;
    let mut text = String::new(alloc);
    for sign in shown.chars().take(MOST) {
        text.push(sign)?;
    }
    Ok(Value::from(text))
}

// The members of an object.
#[derive(Drop)]
struct Members {
    alloc: Global,
    held: Map<String, Value>,
}

impl Members {
    fn add(&mut self, key: &str, value: Value) -> Result<(), AllocError> {
        put(&mut self.held, self.alloc, key, value)
    }
}

impl VisitSource for Members {
    fn visit_pair<D: Display>(&mut self, key: &str, value: kv::Value<'_, D>) -> Result<(), Error> {
        let member = match value.to_u64() {
            Some(number) => Ok(Value::from(number)),
            None => told(self.alloc, &value),
        };
        let Ok(member) = member else {
            return Err(Error::msg("no memory"));
        };
        match self.add(key, member) {
            Ok(()) => Ok(()),
            Err(_) => Err(Error::msg("no memory")),
        }
    }
}
