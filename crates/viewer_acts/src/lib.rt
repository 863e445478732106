//! What a viewer's acts do to its session: those that ask for a size change it, and all others are written. The loops
//! over a viewer's connection and over its messages, and the requests of a tunnel, call it; the loops end by the
//! viewer's leave.
//!
//! `parts_of` of `specs/Parts.antt` says how acts are cut at those that ask for a size, `HasWritten` of
//! `specs/Doing.antt` what became of each part, and `LeftNow` of `specs/Leaving.antt` how a viewer leaves.
#![tactic(auto)]

mod leaving;
mod parts;
mod writing;

pub use leaving::leave;
pub use writing::write_acts;
