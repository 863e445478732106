//! Recordings: a strict reading of one with an index of its syncs, a player that shows any of them, and a log
//! of the keys in a captured stream of a client.
//!
//! The definitions that the contracts cite: `IsRecorded` and `IsFault` (`specs/Recorded.antt`) say what is read
//! of bytes, and where the first fault of other bytes stands; `IsPlayedTo` (`specs/Played.antt`) says what a
//! player shows; `log` (`specs/KeyLog.antt`) says what the keys of a client tell, and `IsCaptured` and
//! `IsBadStream` (`specs/Captured.antt`) say in which bytes. `laws` says that no bytes have both readings, that
//! their first fault is one, and that a player of what the gateway sent shows the screen.
#![tactic(auto)]

mod fault;
mod index;
mod key_name;
pub mod laws;
mod limits;
mod logging;
mod player;
mod press;
mod reading;
mod recording;
mod stamp;
mod sync_at;

pub use fault::RecordFault;
pub use logging::key_log;
pub use player::Player;
pub use recording::Recording;
pub use stamp::stamp_of;
pub use sync_at::SyncAt;
