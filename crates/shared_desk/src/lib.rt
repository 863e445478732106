//! A session's desk, shared by any number of threads. Each thread has a pass, and each call on a pass is one
//! turn at the one desk: after all that the pass had seen and known of the session's history, the desk's call
//! was answered by its rule and added an entry or none, at a place of that pass's own (`Called` and `Gives` of
//! `specs/Called.antt`).
//!
//! Each kind of pass has entries of its own kind to itself (`specs/Marks.antt`). So its calls also say, in
//! words of the history alone, what became of its part: the bytes that were heard, the bytes that were taken,
//! what a viewer was given, the entries of a writer. `docs/LOCK.md` tells of passes and turns in words.
//!
//! Only `newest` and `viewer` answer without a turn; every other call waits for one.
#![tactic(auto)]

mod any_pass;
mod calls;
mod held;
mod host;
mod link;
mod meeting;
mod member;
mod owners;
mod place;
mod reader;
mod sender;
mod sharing;
mod writer;

pub use any_pass::AnyPass;
pub use desk_core::{
    Closed, Desk, FeedRefusal, JoinRefusal, NoMemory, NoViewer, ReadAnswer, ReadRefusal,
    ResizeRefusal, Taken, WriteRefusal, Written,
};
pub use host::HostPass;
pub use link::LinkPass;
pub use meeting::meet;
pub use place::Place;
pub use reader::ReaderPass;
pub use sender::SenderPass;
pub use sharing::{StillOut, end_session, share};
pub use writer::WriterPass;
