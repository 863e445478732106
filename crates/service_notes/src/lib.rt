//! The notes of a service: each is a line of text or of JSON with its time, and who notes is held up by nobody.
//!
//! A note goes into a queue of bounded length, from which one thread writes to standard error. So a reader of the notes
//! that stalls, a standard error that is closed and a disk that is full cost notes alone: what finds no room, or can't be
//! written, is lost, and how many are is noted once one is written again. What is noted is the caller's: no key and
//! nothing of a screen is in a record of the service.
#![tactic(auto)]

mod form;
mod json;
mod line;
mod note_log;
mod queue;
#[cfg(test)]
mod tests;
mod text;

pub use form::Form;
pub use note_log::NoteLog;
pub use queue::Queue;
