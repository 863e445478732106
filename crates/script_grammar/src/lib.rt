//! The lines that the commands over text do: how the bytes of an input are cut into pieces, and what the
//! piece of a script says.
//!
//! The definitions that the contracts cite: `lines_of` and `judged` (`specs/Grammar.antt`), `form_of`
//! (`specs/Words.antt`), `first_piece` (`specs/Pieces.antt`), `digits_of` (`specs/Hexadecimal.antt`), and
//! `IsReading` and `AsksRoom` (`specs/Acts.antt`).
#![tactic(auto)]

mod acts;
mod form;
mod grammar;
mod hexadecimal;
mod line;
mod numbers;
mod order;
mod pieces;
mod play_form;
mod reading;
mod size;
mod text_form;
mod totals;
mod words;

pub use acts::read_acts;
pub use form::Form;
pub use grammar::{judged, most_of};
pub use hexadecimal::push_digits;
pub use line::Line;
pub use order::Order;
pub use pieces::{Part, next_part};
pub use play_form::PlayForm;
pub use reading::Reading;
pub use size::Size;
pub use text_form::TextForm;
pub use totals::Totals;
pub use words::form_of;
