//! What records a session: a recorder is one more viewer, which joined to keep the session, and its recording is
//! the text of all that it is given.
//!
//! `OutletRun` of user_serve's `specs/Outlets.antt` says what was written, which entries its pass gained, and why
//! it ended.
#![tactic(auto)]

mod recording;

pub use recording::keep;
