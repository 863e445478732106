//! A viewer over messages: what it sends comes in messages of whole instructions, and each is answered by one message
//! with what it is given. So the gateway never speaks first, and nothing is lost or comes twice (this project's own
//! profile; a WebSocket of RFC 6455 is such a link).
//!
//! `HasServed` of `specs/Served.antt` says what `ws_serve` received, sent and asked of the door, and `MessagesRun` of
//! `specs/Runs.antt` what the messages of a viewer that was let in made of its passes.
#![tactic(auto)]

mod answering;
mod asking;
mod ends;
mod got;
mod leaving;
mod mem_messages;
mod messages;
mod moving;
mod opening;
mod serving;
mod texts;

pub use ends::{WsEnd, WsRun};
pub use got::{Got, LinkFailed};
pub use mem_messages::MemMessages;
pub use messages::Messages;
pub use serving::ws_serve;
