//! The drawing machine: layers of pixels, and what each instruction makes of them.
//!
//! Contracts see a canvas as the list of its layers, that of number -n at place n
//! (`specs/Kept.antt`). `Stands` of `specs/Standing.antt` ties it to the layers of gate_model's
//! `specs/picture/Layers.antt`: sizes, pixels, paths, and whether a path was filled. What is played, read and
//! compared is what `play`, `Layer` and `Same` say there, for all layers for which the canvas stands. Of a text the
//! instructions are played (`texts` of gate_model's `specs/text/Text.antt`).
#![tactic(auto)]

mod canvas;
mod dot;
mod layer;
mod pixels;
mod rectangle;
mod texts;

pub use canvas::Canvas;
pub use dot::Dot;
pub use texts::{play_text, played};
