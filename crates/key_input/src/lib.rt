//! The keys that a viewer presses: the modifiers that stay held, and the bytes that each press sends
//! (this project's own; keysyms are those of the X Window System). The contracts cite the definitions
//! of gate_model: `mods_after` in its `Modifiers`, and `encoding` in its `Encoding`.
#![tactic(auto)]

mod encoding;
mod key_bytes;
mod keysym;
mod modifiers;
mod named;

pub use encoding::encode;
pub use key_bytes::KeyBytes;
pub use keysym::character;
pub use modifiers::{alt_held, control_held, mods_after};
