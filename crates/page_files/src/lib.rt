//! The page's files, as a service hands them out: by which host they may be asked for, which request asks for which
//! file, and the answer.
//!
//! A request whose `Host` is neither an address, `localhost` nor one of the names given is refused, so that a name that
//! was bound anew to this machine gets nobody further (`is_known` of `specs/Asking.antt`). Which fields an answer has is
//! `answer_text` of `specs/Answers.antt`.
#![tactic(auto)]

mod answering;
mod asking;
mod file;
mod judging;

pub use answering::answer;
pub use asking::{file_at, is_known};
pub use file::PageFile;
pub use judging::{Judged, judge};
