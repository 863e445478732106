//! Sessions for the programs that try them: opened, joined by viewers, and given their passes back.
#![tactic(auto)]

mod sessions;

pub use sessions::{Screen, give_back, joined, opened, opened_as};
