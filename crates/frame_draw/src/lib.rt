//! Frames: the instructions that bring a viewer's layers from one screen to the next.
//!
//! A glyph is painted once, into a buffer of its own, and then copied to each cell that shows it. A frame
//! moves the visible layer by the lines that the whole screen was scrolled up, copies a band of rows that moved beside them
//! where that is fewer instructions, gives every key of the new screen a buffer, and copies the cells that changed; strips of
//! blank cells are filled, and runs of cells copied from where they stand already. A frame of another size sizes the visible layer first. Over the layers of the old screen and of the buffers
//! before it, it leaves those of the new screen and of the buffers after it (`AreLayers` and `Renews` of
//! gate_model's `specs/picture/Buffers.antt`), it has the shape of a frame (`specs/picture/Shape.antt`), and while no buffer
//! is reused its length has a bound by the cells that changed and the keys that are new
//! (`specs/session/Cost.antt`). How a frame goes on from place to place is `Along` of this crate's
//! `specs/Along.antt`. All this is this project's own.
#![tactic(auto)]

mod bands;
mod blanks;
mod drawer;
mod runs;
mod strokes;
mod wanted;

pub use blanks::fill_blanks;
pub use drawer::{frame, opening, resized};
pub use runs::number_of;
