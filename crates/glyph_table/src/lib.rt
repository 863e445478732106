//! The palette and the font (this project's own), and what they make of a key: colours, lit pixels
//! and rectangles.
//!
//! The tables here are proved to be those of gate_model's `specs/picture/`, which define the picture: `Palette.antt`,
//! `Font.antt`, and for the faces beyond ASCII the rules of `Letters.antt` and `Lines.antt`. The rectangles of a glyph are those of `specs/GlyphRects.antt`. The tables
//! are statics: a read of a constant's element copies the whole table.
#![tactic(auto)]

mod bars;
mod patch;
mod rects;
mod tables;

pub use patch::Patch;
pub use rects::{Rects, rects_of};
pub use tables::{colour_of, lit};
