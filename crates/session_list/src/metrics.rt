//! The counts as Prometheus reads them.

use crate::Outside;
use crate::counts::{CAUSES, Counts, FAULTS, STATUSES};
use crate::row::Row;
use crate::traffic::Carried;
use gate_model::{NoMemory, Role};
use std::alloc::{AllocError, Global};
use std::collections::BTreeMap;
use std::fmt::Write;
use std::sync::atomic::Ordering::SeqCst;
use uuid::Uuid;

/// The counts, in the text format of Prometheus, version 0.0.4.
pub(crate) fn metrics_of(
    alloc: Global,
    rows: &BTreeMap<Uuid, Row>,
    counts: &Counts,
    carried: &Carried,
    outside: &Outside,
) -> Result<String, NoMemory> {
    let mut text = Text {
        text: String::new(alloc),
    };
    text.one("sessions", "gauge", rows.len() as u64)?;
    text.viewers(rows)?;
    text.one("waiting_bytes", "gauge", waiting_in(rows))?;
    text.one("sessions_begun_total", "counter", counts.begun.load(SeqCst))?;
    text.ends(counts)?;
    text.one(
        "viewers_joined_total",
        "counter",
        counts.joined.load(SeqCst),
    )?;
    text.one("frames_total", "counter", carried.frames())?;
    text.one("host_bytes_in_total", "counter", carried.bytes_in())?;
    text.one("host_bytes_out_total", "counter", carried.bytes_out())?;
    text.refusals(counts)?;
    text.faults(counts, outside)?;
    text.turns(outside)?;
    Ok(text.text)
}

// How many bytes wait for all hosts.
fn waiting_in(rows: &BTreeMap<Uuid, Row>) -> u64 {
    let mut waiting = 0u64;
    for row in rows.values() {
        waiting = waiting.saturating_add(row.waiting);
    }
    waiting
}

// How many viewers are in a role.
fn viewers_in(rows: &BTreeMap<Uuid, Row>, role: Role) -> u64 {
    let mut viewers = 0u64;
    for row in rows.values() {
        viewers = viewers.saturating_add(row.count(role));
    }
    viewers
}

// The text so far. Each name begins with that of the program.
#[derive(Drop)]
struct Text {
    text: String,
}

impl Text {
    // What follows is of one name and kind.
    fn name(&mut self, name: &str, kind: &str) -> Result<(), AllocError> {
        write!(self.text, "# TYPE guacgate_{name} {kind}\n").map_err(|_| AllocError)
    }

    // A name with one count.
    fn one(&mut self, name: &str, kind: &str, count: u64) -> Result<(), AllocError> {
        self.name(name, kind)?;
        write!(self.text, "guacgate_{name} {count}\n").map_err(|_| AllocError)
    }

    // One count of several of a name.
    fn label(
        &mut self,
        name: &str,
        label: &str,
        value: &str,
        count: u64,
    ) -> Result<(), AllocError> {
        write!(
            self.text,
            "guacgate_{name}{{{label}=\"{value}\"}} {count}\n"
        )
        .map_err(|_| AllocError)
    }

    // How many viewers there are, by role.
    fn viewers(&mut self, rows: &BTreeMap<Uuid, Row>) -> Result<(), AllocError> {
        self.name("viewers", "gauge")?;
        self.label("viewers", "role", "type", viewers_in(rows, Role::Control))?;
        self.label("viewers", "role", "look", viewers_in(rows, Role::View))?;
        self.label("viewers", "role", "record", viewers_in(rows, Role::Keep))
    }

    // How many sessions ended, by cause.
    fn ends(&mut self, counts: &Counts) -> Result<(), AllocError> {
        self.name("sessions_ended_total", "counter")?;
        for (place, cause) in CAUSES.iter().enumerate() {
            self.label("sessions_ended_total", "end", cause, counts.ended(place))?;
        }
        Ok(())
    }

    // How many were refused, by status.
    fn refusals(&mut self, counts: &Counts) -> Result<(), AllocError> {
        self.name("refused_total", "counter")?;
        for (place, status) in STATUSES.iter().enumerate() {
            let count = counts.refused(place);
            write!(
                self.text,
                "guacgate_refused_total{{status=\"{status}\"}} {count}\n"
            )
            .map_err(|_| AllocError)?;
        }
        Ok(())
    }

    // How many faults there were, by kind.
    fn faults(&mut self, counts: &Counts, outside: &Outside) -> Result<(), AllocError> {
        self.name("faults_total", "counter")?;
        for (place, kind) in FAULTS.iter().enumerate() {
            self.label("faults_total", "kind", kind, counts.faults(place))?;
        }
        self.label("faults_total", "kind", "descriptors", outside.descriptors)?;
        self.label("faults_total", "kind", "notes", outside.notes)
    }

    // How long the pieces of hosts took, in seconds.
    fn turns(&mut self, outside: &Outside) -> Result<(), AllocError> {
        let (seconds, rest) = (
            outside.nanoseconds / 1_000_000_000,
            outside.nanoseconds % 1_000_000_000,
        );
        self.name("turn_seconds", "summary")?;
        write!(
            self.text,
            "guacgate_turn_seconds_sum {seconds}.{rest:09}\nguacgate_turn_seconds_count {}\n",
            outside.turns
        )
        .map_err(|_| AllocError)
    }
}
