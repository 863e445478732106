ghost use Rattle.std.specs.Prelude.{◌≡◌};
ghost use Rattle.gate_model.specs.declared.resize_refusal.ResizeRefusal.TheVariants.{NoMemory as no_memory};

use crate::{Cause, NoMemory};
use std::alloc::AllocError;

/// Why a change of size was refused; the first cause that holds is given (this project's own rule).
#[derive(Clone, Copy, Debug, PartialEq, Eq)]
pub enum ResizeRefusal {
    /// The viewer never joined, or has left.
    NoViewer,
    /// The session was closed.
    Closed(Cause),
    /// The viewer doesn't have the role Control.
    Denied,
    /// That size is in force.
    Same,
    /// The session has this many entries, and may have no more.
    Worn { entries: u64 },
    /// Want of memory.
    NoMemory,
}

impl From<NoMemory> for ResizeRefusal {
    ghost from_gives = { λ _ e. e ≡ no_memory };

    fn from(_refused: NoMemory) -> ResizeRefusal {
        ResizeRefusal::NoMemory
    }
}

impl From<AllocError> for ResizeRefusal {
    ghost from_gives = { λ _ e. e ≡ no_memory };

    fn from(_refused: AllocError) -> ResizeRefusal {
        ResizeRefusal::NoMemory
    }
}
