//! The instructions that paint a key over a cell of a layer, and the laws of what they leave there.
//!
//! A cell is painted by its paper and then by the rectangles of its glyph (`covering` of
//! `specs/Strokes.antt`). Whatever the layer showed, the cell then shows the key's glyph, and the rest of the
//! layer and every other layer stay (`proofs/Filled.antt`). This is this project's own.
#![tactic(auto)]

mod strokes;

pub use strokes::{cover, fill_with};
