//! How the two loops end.

use gate_model::Cause;

/// How a pump ended (this project's own).
#[derive(Clone, Copy, Debug, PartialEq, Eq)]
pub enum PumpEnd {
    /// The host ended the connection. The session is closed with `ServerEnd`.
    LinkEnded,
    /// A read failed. The session is closed with `LinkFault`.
    ReadFault,
    /// The session was closed, for this cause.
    Closed(Cause),
    /// The session has as many entries as it may have. It is closed with `Worn`.
    Worn,
    /// Want of memory. The session goes on.
    NoMemory,
}

/// How a sender ended (this project's own).
#[derive(Clone, Copy, Debug, PartialEq, Eq)]
pub enum SenderEnd {
    /// The session is closed, and all that it had for the host was written.
    Ended,
    /// A write failed. The session is closed with `LinkFault`.
    WriteFault,
}
