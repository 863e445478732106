//! Pasted text, typed as keys.
//!
//! A `ClipSource` gives what an inner source gives, in which the instructions of a clipboard are taken out and the text
//! that was pasted stands as keys: `pasted` of `specs/Pasted.antt`. It takes all its memory when it is made.
#![tactic(auto)]

mod clip;
mod held;
mod keys;
mod pasted;
mod paster;
mod source;
mod waiting;
mod wish;

pub use paster::Paster;
pub use source::ClipSource;
