//! How the loops of a viewer end.

use gate_model::{Cause, Text};
use guac_framing::BadAt;
use shared_desk::Place;

/// How an intake ended (this project's own).
#[derive(Clone, Copy, Debug, PartialEq, Eq)]
pub enum IntakeEnd {
    /// The viewer sent `disconnect`, or its bytes ended.
    Disconnected,
    /// A read failed.
    ReadFault,
    /// A byte begins no instruction. Its place is counted from the first byte of its instruction.
    Bad(BadAt),
    /// The viewer had left.
    Left,
    /// The session was closed, for this cause.
    Closed(Cause),
    /// The session has as many entries as it may have.
    Worn,
    /// Want of memory.
    NoMemory,
}

/// How an outlet ended (this project's own).
#[derive(Clone, Copy, Debug, PartialEq, Eq)]
pub enum OutletEnd {
    /// The viewer was given the closing instruction, and all was written.
    Ended,
    /// The viewer had left.
    Left,
    /// A write failed.
    WriteFault,
    /// The session has as many entries as it may have.
    Worn,
    /// Want of memory.
    NoMemory,
}

/// A viewer that was served: the ID that it was told, its place, and how its two loops ended.
#[derive(Drop)]
pub struct Visit {
    pub id: Text,
    pub place: Place,
    pub intake: IntakeEnd,
    pub outlet: OutletEnd,
}

/// How a viewer's connection ended (this project's own).
#[derive(Drop)]
pub enum UserEnd {
    /// The viewer was let in, and both its loops have ended. The place is to be given back to the door.
    Served(Visit),
    /// The viewer was sent `error` with this status.
    Refused(u16),
    /// Its bytes ended before `connect`.
    Ended,
    /// A read of the greeting failed.
    ReadFault,
    /// A write of the greeting failed.
    WriteFault,
    /// Want of memory, before or in the greeting.
    NoMemory,
}
