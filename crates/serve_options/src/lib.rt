//! The words of `serve`: the seed of its IDs, the port that it listens on, where sessions are recorded, how much it
//! notes and how that is written, where the operator asks, what may be dialed, when peers and sessions are given up, which
//! faces sessions have, and whether it has a page.
//!
//! They are read by one simple command of `clap`, whose options are texts; the form of each value is checked by
//! hand. Which options the words give is `options_given` of `specs/Given.antt`.
#![tactic(auto)]

mod allowed;
mod causes;
mod command;
mod format;
mod names;
mod options;
mod texts;
mod values;

pub use allowed::Allowed;
pub use causes::{cause, cause_of_admin, cause_of_prefix};
pub use command::help;
pub use format::LogFormat;
pub use names::Names;
pub use options::{Options, WordsFault, options_of};
