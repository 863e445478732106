//! What instructions mean, and the text of those that the gateway sends.
//!
//! A client's instruction asks for an act (`act_of` of gate_model's `specs/text/ClientMeaning.antt`), and in the
//! handshake says who connects (`greeting_of` of `specs/text/HelloMeaning.antt`). The writers append exactly the
//! text that `specs/text/Text.antt` defines, and the reader of the gateway's own instructions gives back what
//! they wrote (`instr_of` of `specs/text/ServerMeaning.antt`). An instruction without a meaning is None.
#![tactic(auto)]

mod client;
mod constants;
mod handshake;
mod hello;
mod part;
mod server;
mod texts;
mod values;

pub use client::read_client;
pub use handshake::read_hello;
pub use hello::Hello;
pub use server::read_server;
pub use texts::{text_of, texts_of};
