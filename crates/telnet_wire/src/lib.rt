//! Telnet tokens from a stream of bytes, however it is cut (RFC 854 and 855), and the doubling of 255 in what is
//! sent. What a Telnet peer sends mixes data with commands and negotiation; this crate tells them apart, once, so
//! that the rest sees whole tokens alone.
//!
//! `Wire::feed` gives, piece after piece, the tokens that the bytes so far complete, and its contract cites their
//! definition: `tokens` in gate_model's `TelnetTokens`. `escape` appends its `doubled`.
//!
//! What malformed input means is this project's own:
//!
//! - IAC before a byte below 241 is dropped with that byte; so is IAC SE outside a subnegotiation.
//! - IAC within a subnegotiation, before a byte other than IAC and SE, ends it without a token, and the two bytes are
//!   read as outside one.
//! - A subnegotiation of more than 1,024 bytes, the option among them, is read to its end and gives no token.
#![tactic(auto)]

mod doubling;
mod kept;
mod part;
mod reader;
mod state;
mod wire;

pub use doubling::escape;
pub use part::Part;
pub use wire::Wire;
