//! The desk: one session's screen, its frames and its viewers, and the one place where the session's
//! entries are added.
//!
//! Contracts see a desk as what it keeps (`DeskState`), and `Stands` says for which histories it may
//! stand (`specs/Desk.antt`): each part of a desk has a relation of its own to the history. Each call
//! ends in one way (`Ended` in `specs/Calls.antt`): it answers by the rule of its call in gate_model
//! (`Step` in `specs/session/Calls.antt` there) for every history for which the desk stood, and leaves a desk
//! that stands for that history with the entry that the call added. A call that is refused leaves the
//! desk and the buffer as they were, and one that is refused for want of memory was stopped by nothing
//! else. No entry is stored: the history is in no memory. What is kept doesn't grow with it, but for the
//! bytes that wait for the Telnet host: the screen and its glyph buffers, the last frames within their
//! limits, and the live viewers.
#![tactic(auto)]

mod desk;
mod drawing;
mod frames;
mod giving;
mod host;
pub mod laws;
mod log;
mod outgoing;
mod showing;
mod typing;

pub use desk::Desk;
pub use gate_model::{
    Answer, Closed, Event, FeedRefusal, Forbidden, JoinRefusal, Joined, NoMemory, NoViewer,
    ReadAnswer, ReadRefusal, ResizeRefusal, Setup, Taken, WriteRefusal, Written,
};
