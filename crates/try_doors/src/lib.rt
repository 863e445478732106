//! A door to one session of two cells, for the programs that try what serves viewers behind a door.
#![tactic(auto)]

mod door;
mod session;

pub use door::{NAME, NoJob, OneDoor, Opens};
pub use session::Session;
