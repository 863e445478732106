//! A link of messages over a WebSocket (RFC 6455), by the kit's `tungstenite`: the trusted edge. The connection's bytes
//! come from a source and go to a sink, and those that were read before come first. The link tells nothing of what it
//! carries.
//!
//! `Appends` of `specs/Reads.antt` says what one read of it puts into a buffer.
#![tactic(auto)]

mod ends;
mod link;
mod origin;
mod socket;
#[cfg(test)]
mod tests;

pub use link::WsLink;
