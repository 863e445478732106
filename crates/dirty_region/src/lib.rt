//! Which places of a screen changed.
//!
//! A screen is compared with the one before it, once as many lines of that one were moved up as the whole
//! screen was scrolled by: a frame moves them by one copy, and redraws the places that differ then
//! (`changes` of gate_model's `specs/session/Cost.antt`). Where a band of rows moved too, it is compared with that one once
//! the band was copied to where it stands (`left` of this crate's `specs/Bands.antt`). This is this project's own rule.
#![tactic(auto)]

mod band;
mod places;
mod rows;

pub use band::Band;
pub use places::Changes;
pub use rows::{changes, left};
