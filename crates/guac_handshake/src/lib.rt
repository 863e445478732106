//! The handshake of a Guacamole connection: a client says whom it wants, and gets a place in a session, or
//! the exact reason why not (the Guacamole manual, "The Guacamole protocol", on the handshake).
//!
//! `greet` reads instructions up to `connect`, asks a [`Door`] what they ask (`asks` of `specs/Asks.antt`) and
//! writes the answer. `IsGreeting` of `specs/Greetings.antt` says what it read, asked and wrote at each end.
//! `open_form` asks a door what the form of an HTTP request asks (`IsForm` of `specs/Forms.antt`).
#![tactic(auto)]

mod ask;
mod asking;
mod connecting;
mod door;
mod expected;
mod form;
mod form_refusal;
mod greeted;
mod greeting;
mod hearing;
pub mod memory;
mod names;
mod opening;
mod pairs;
mod refused;
mod replies;
mod request;
mod sizes;
mod statuses;
mod stop;
mod unread;
mod welcome;

pub use ask::Ask;
pub use door::Door;
pub use form_refusal::FormRefusal;
pub use gate_outside::{Job, Seat};
pub use greeted::Greeted;
pub use greeting::greet;
pub use names::{NAME_BYTES, id_named, name_in, name_of};
pub use opening::open_form;
pub use pairs::read_pairs;
pub use refused::Refused;
pub use request::Request;
pub use sizes::{columns_of, rows_of};
pub use statuses::status_of;
pub use welcome::{Begun, Recorder, Welcome};
