//! Control functions from a stream of bytes, however it is cut (ECMA-48). What a host sends is UTF-8 with control
//! functions in it; this crate says what it means, once, so that a screen sees control functions alone.
//!
//! `Parser::feed` gives, byte after byte, the control functions of the bytes so far, and its contract
//! cites their definition: `controls` of `characters`, in gate_model's `Controls` and `Characters`.
//!
//! The states are those of Paul Williams's parser for terminals of the VT500 series
//! (<https://vt100.net/emu/dec_ansi_parser>), which the crate `vte` follows too. The differences:
//!
//! - It reads characters, not bytes, so that U+0080 to U+009F begin nothing.
//! - A character that isn't allowed in a sequence, a control character among them, abandons it and is then read as
//!   outside one. In the original a control character takes effect within the sequence.
//! - A sequence with intermediates, with a private mark other than `?`, with `:` or with more than 256
//!   characters has no effect, nor has a string. So a DCS is read as SOS, PM and APC are.
//! - A parameter counts as at most 9,999, and those after the sixteenth are left out.
//! - `OSC P` and seven characters set a colour of the Linux console's palette, and `OSC R` resets the palette;
//!   neither has a terminator. Both are read over.
#![tactic(auto)]

mod held;
mod kinds;
mod machine;
mod parser;
mod sequence;
mod state;
mod values;

pub use parser::{Pair, Parser};
pub use state::Completed;
