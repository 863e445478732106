//! Snapshots: the instructions that bring any viewer's layers to those of the screen and its buffers.
//!
//! A snapshot paints each buffer of the cache anew, sizes the visible layer, and draws every place of the
//! screen: from the buffer of its key, or by rectangles where its key has none. Over any layers without
//! an unfilled path in which each layer that has a size is the visible one or a buffer of the cache, it
//! leaves the layers of the screen and the cache (`Makes` of gate_model's `specs/picture/Buffers.antt`), and it
//! has the shape of a frame (its `specs/picture/Shape.antt`). All this is this project's own.
#![tactic(auto)]

mod maker;
mod strokes;

pub use maker::snapshot;
