//! Counts of what came to pass.

use gate_model::{Cause, statuses};
use std::sync::atomic::AtomicU64;
use std::sync::atomic::Ordering::SeqCst;

/// How many sessions have begun, how many have ended for each cause, how many viewers have joined, how many of whom
/// asked were refused with each status, and how many faults there were of each kind.
#[derive(Drop)]
pub(crate) struct Counts {
    pub(crate) begun: AtomicU64,
    pub(crate) joined: AtomicU64,
    ends: [AtomicU64; 4],
    refused: [AtomicU64; 9],
    faults: [AtomicU64; 3],
}

/// What a cause is called, in the order of the counts.
pub(crate) const CAUSES: [&str; 4] = ["host", "fault", "stopped", "full"];

/// The statuses that are counted (docs/REFUSALS.md). Any other one counts as the first, of which it is a kind.
pub(crate) const STATUSES: [u16; 9] = [
    statuses::NO_MEMORY,
    statuses::SERVER_BUSY,
    statuses::NOT_FOUND,
    statuses::CONFLICT,
    statuses::UPSTREAM_NOT_FOUND,
    statuses::SESSION_CLOSED,
    statuses::BAD_REQUEST,
    statuses::FORBIDDEN,
    statuses::TOO_MANY,
];

/// What went wrong: a host couldn't be dialed, a job of a session couldn't be started, or a recorder couldn't be had or
/// has gone.
#[derive(Clone, Copy, Debug, PartialEq, Eq)]
pub enum Fault {
    Dial,
    Start,
    Recorder,
}

/// What a fault is called, in the order of the counts.
pub(crate) const FAULTS: [&str; 3] = ["dial", "start", "recorder"];

impl Counts {
    /// Nothing came to pass.
    pub(crate) fn new() -> Counts {
        Counts {
            begun: AtomicU64::new(0),
            joined: AtomicU64::new(0),
            ends: [zero(), zero(), zero(), zero()],
            refused: [
                zero(),
                zero(),
                zero(),
                zero(),
                zero(),
                zero(),
                zero(),
                zero(),
                zero(),
            ],
            faults: [zero(), zero(), zero()],
        }
    }

    /// A session has ended.
    pub(crate) fn end(&self, cause: Cause) {
        let place = match cause {
            Cause::ServerEnd => 0usize,
            Cause::LinkFault => 1,
            Cause::Stopped => 2,
            Cause::Worn => 3,
        };
        count(&self.ends, place);
    }

    /// Who asked was refused with a status.
    pub(crate) fn refuse(&self, status: u16) {
        let place = STATUSES.iter().position(|known| *known == status);
        count(&self.refused, place.unwrap_or(0));
    }

    /// Something went wrong.
    pub(crate) fn fail(&self, fault: Fault) {
        let place = match fault {
            Fault::Dial => 0usize,
            Fault::Start => 1,
            Fault::Recorder => 2,
        };
        count(&self.faults, place);
    }

    /// How many sessions ended for the cause at a place of `CAUSES`.
    pub(crate) fn ended(&self, place: usize) -> u64 {
        counted(&self.ends, place)
    }

    /// How many were refused with the status at a place of `STATUSES`.
    pub(crate) fn refused(&self, place: usize) -> u64 {
        counted(&self.refused, place)
    }

    /// How many faults there were of the kind at a place of `FAULTS`.
    pub(crate) fn faults(&self, place: usize) -> u64 {
        counted(&self.faults, place)
    }
}

// A count of nothing.
fn zero() -> AtomicU64 {
    AtomicU64::new(0)
}

// One more at a place.
fn count(counts: &[AtomicU64], place: usize) {
    if let Some(count) = counts.get(place) {
        count.fetch_add(1, SeqCst);
    }
}

// How many there are at a place.
fn counted(counts: &[AtomicU64], place: usize) -> u64 {
    match counts.get(place) {
        Some(count) => count.load(SeqCst),
        None => 0,
    }
}
