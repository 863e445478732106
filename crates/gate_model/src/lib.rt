//! The words that every other crate speaks: the public types of the gateway, and in `specs/` the
//! definitions that its contracts cite, from the text of an instruction to the histories that are
//! legal and true.
//!
//! A history is the list of a session's entries. *True history*, the definition that the headline
//! cites, says of a history that whatever any viewer was given up to a sync draws exactly the
//! picture of the screen that the history up to that sync defines (`specs/session/Truth.antt`). No function
//! here waits, and none but the tables of `statuses` and `more_faces` compute. Limits stand in `limits`.
#![tactic(auto)]

mod act;
mod acts;
mod answer;
mod answers;
mod bytes;
mod cause;
mod cell;
mod closed;
mod colour;
mod control;
mod entry;
mod event;
mod faces;
mod feed_refusal;
mod forbidden;
mod how;
mod instr;
mod instrs;
mod join_refusal;
mod joined;
mod key;
pub mod laws;
pub mod limits;
mod memory;
mod mods;
pub mod more_faces;
mod no_viewer;
mod read_answer;
mod read_refusal;
mod resize_refusal;
mod setup;
mod sharing;
mod shown;
pub mod statuses;
mod taken;
pub mod telnet_codes;
mod text;
mod token;
mod tokens;
mod write_refusal;
mod written;

pub use act::Act;
pub use acts::Acts;
pub use answer::Answer;
pub use answers::Answers;
pub use bytes::Bytes;
pub use cause::Cause;
pub use cell::{Cell, Half};
pub use closed::Closed;
pub use colour::Colour;
pub use control::{Control, Params};
pub use entry::Entry;
pub use event::Event;
pub use faces::Faces;
pub use feed_refusal::FeedRefusal;
pub use forbidden::Forbidden;
pub use how::How;
pub use instr::Instr;
pub use instrs::Instrs;
pub use join_refusal::JoinRefusal;
pub use joined::Joined;
pub use key::Key;
pub use memory::NoMemory;
pub use mods::Mods;
pub use no_viewer::NoViewer;
pub use read_answer::ReadAnswer;
pub use read_refusal::ReadRefusal;
pub use resize_refusal::ResizeRefusal;
pub use setup::Setup;
pub use sharing::{Asked, Role, Share};
pub use shown::Shown;
pub use taken::Taken;
pub use text::Text;
pub use token::Token;
pub use tokens::Tokens;
pub use write_refusal::WriteRefusal;
pub use written::Written;
