//! The elements of instructions, read and written.
//!
//! `next_instruction` says what the front of some bytes is, and lends the elements of an instruction from
//! them; `Spells` of gate_model's `specs/text/Spelling.antt` says which bytes are an instruction. The writers
//! append exactly the `element` of `specs/text/Text.antt`, or the end of an instruction. A writer that is refused
//! for want of memory leaves its buffer as it was.
#![tactic(auto)]

mod character;
mod element;
mod frame;
mod length;
mod limits;
mod next;
mod reader;
mod separator;
mod span;
mod value;

pub use element::{put_element, put_end, put_number};
pub use frame::Frame;
pub use next::{BadAt, BadKind, Next};
pub use reader::next_instruction;
