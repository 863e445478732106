//! The statuses that the gateway tells (the Guacamole manual, "Guacamole protocol reference", status
//! codes), and the one of each refusal (this project's own).

ghost use Rattle.std.specs.Prelude.{◌≡◌};
ghost use Rattle.gate_model.specs.text.Statuses.{closed_status, feed_status, join_status, no_viewer_status, read_status, write_status};

use crate::{Closed, FeedRefusal, JoinRefusal, NoViewer, ReadRefusal, WriteRefusal};

/// Want of memory.
pub const NO_MEMORY: u16 = 512;

/// Too many connections are served.
pub const SERVER_BUSY: u16 = 513;

/// There is no such viewer, session or path.
pub const NOT_FOUND: u16 = 516;

/// What was drawn is there already.
pub const CONFLICT: u16 = 517;

/// The Telnet host can't be reached.
pub const UPSTREAM_NOT_FOUND: u16 = 519;

/// The session was closed, or may have no more entries.
pub const SESSION_CLOSED: u16 = 523;

/// What was asked can't be read.
pub const BAD_REQUEST: u16 = 768;

/// The session isn't shared so.
pub const FORBIDDEN: u16 = 771;

/// Too many viewers are there, or have joined.
pub const TOO_MANY: u16 = 797;

impl FeedRefusal {
    /// The status that is told for it.
    pub fn status(self) -> u16
        ensures { result ≡ feed_status self }
    {
        match self {
            FeedRefusal::Closed(_) | FeedRefusal::Worn { .. } => SESSION_CLOSED,
            FeedRefusal::NoMemory => NO_MEMORY,
        }
    }
}

impl JoinRefusal {
    /// The status that is told for it.
    pub fn status(self) -> u16
        ensures { result ≡ join_status self }
    {
        match self {
            JoinRefusal::Closed(_) | JoinRefusal::Worn { .. } => SESSION_CLOSED,
            JoinRefusal::Forbidden => FORBIDDEN,
            JoinRefusal::TooMany { .. } => TOO_MANY,
            JoinRefusal::NoMemory => NO_MEMORY,
        }
    }
}

impl ReadRefusal {
    /// The status that is told for it.
    pub fn status(self) -> u16
        ensures { result ≡ read_status self }
    {
        match self {
            ReadRefusal::NoViewer => NOT_FOUND,
            ReadRefusal::Worn { .. } => SESSION_CLOSED,
            ReadRefusal::NoMemory => NO_MEMORY,
        }
    }
}

impl WriteRefusal {
    /// The status that is told for it.
    pub fn status(self) -> u16
        ensures { result ≡ write_status self }
    {
        match self {
            WriteRefusal::NoViewer => NOT_FOUND,
            WriteRefusal::Closed(_) | WriteRefusal::Worn { .. } => SESSION_CLOSED,
            WriteRefusal::NoMemory => NO_MEMORY,
        }
    }
}

impl NoViewer {
    /// The status that is told for it.
    pub fn status(self) -> u16
        ensures { result ≡ no_viewer_status self }
    {
        NOT_FOUND
    }
}

impl Closed {
    /// The status that is told for it.
    pub fn status(self) -> u16
        ensures { result ≡ closed_status self }
    {
        SESSION_CLOSED
    }
}
