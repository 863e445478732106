//! The limits of an instruction (this project's own).

pub(crate) use gate_model::limits::{MOST_ELEMENTS, MOST_INSTRUCTION};

/// The most digits of a length.
pub(crate) const MOST_DIGITS: usize = 5;
