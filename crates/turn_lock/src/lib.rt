//! A lock by tickets over one value that threads share. A session's threads each have a pass. A pass
//! takes its turn with the value, adds at most one entry to the history that the value stands for,
//! and hands the value on.
//!
//! The history is in no memory. It stands in the lock's rule (`specs/Rule.antt`), which holds between
//! any two steps of any passes and says of each pass which part of the history it has seen and which
//! entries it added. Contracts see a pass as its view (`View`). `docs/LOCK.md` tells it in words.
//!
//! The lock is the one place where a proof meets atomic steps. `turn` and `finish` wait for other
//! threads; no other call does.
#![tactic(auto)]

mod beds;
mod kept;
mod lock;
mod pass;
mod passes;
mod plays;
mod rule;
mod steps;
#[cfg(test)]
mod tests;
mod turn;
mod view;
mod waits;

pub use ghost_list::Lists;
pub use kept::{Adds, Kept};
pub use lock::TurnLock;
pub use pass::Pass;
pub use turn::Turn;
pub use view::View;
