//! The frames that are kept for viewers who are behind: the last ones, at most 256 with at most 8,388,608
//! bytes of text (this project's own rule).
//!
//! Contracts see a history as a `HistoryState`: the kept frames, oldest first, each its stamp and the
//! bytes of its text, and the stamp of the last frame that is gone. `HasKept` says for which frames, all
//! that were ever pushed, it stands; both are in `specs/Keeping.antt`. No other frame is in memory.
#![tactic(auto)]

mod history;
mod kept;
pub mod laws;
mod queue;

pub use history::History;
pub use kept::Kept;
