//! The lines that `load` makes from a number: words are drawn, and each round of them is some lines of a
//! script, as values.
//!
//! The definitions that the contracts cite: `drawn`, the words (`specs/Words.antt`), and `round_lines` and
//! `load_orders`, the lines that they make (`specs/Rounds.antt`).
#![tactic(auto)]

mod draws;
mod rounds;
mod text;

pub use draws::Draws;
pub use rounds::Rounds;
