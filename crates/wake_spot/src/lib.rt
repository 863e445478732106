//! Spots that threads sleep at until they are rung: one by itself, and those of a session.
//!
//! Whoever is to sleep reads the number of rings first, then looks for news, and then sleeps on that number. So a ring
//! that comes between the look and the sleep isn't missed, and a ring where nobody sleeps is one addition and one load.
//!
//! No clause speaks of a spot, since none can speak of time: a wait may return at any time, and tests alone show that
//! no wake is missed.
#![tactic(auto)]

mod rings;
mod spot;
mod spots;
#[cfg(test)]
mod tests;

pub use rings::Rings;
pub use spot::Spot;
pub use spots::Spots;
