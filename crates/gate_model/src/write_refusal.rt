ghost use Rattle.std.specs.Prelude.{◌≡◌};
ghost use Rattle.gate_model.specs.declared.write_refusal.WriteRefusal.TheVariants.{NoMemory as no_memory};

use crate::{Cause, NoMemory};
use std::alloc::AllocError;

/// Why a viewer's instructions were refused; the first cause that holds is given (this project's own
/// rule).
#[derive(Clone, Copy, Debug, PartialEq, Eq)]
pub enum WriteRefusal {
    /// The viewer never joined, or has left.
    NoViewer,
    /// The session was closed.
    Closed(Cause),
    /// The session has this many entries, and may have no more.
    Worn { entries: u64 },
    /// Want of memory.
    NoMemory,
}

impl From<NoMemory> for WriteRefusal {
    ghost from_gives = { λ _ e. e ≡ no_memory };

    fn from(_refused: NoMemory) -> WriteRefusal {
        WriteRefusal::NoMemory
    }
}

impl From<AllocError> for WriteRefusal {
    ghost from_gives = { λ _ e. e ≡ no_memory };

    fn from(_refused: AllocError) -> WriteRefusal {
        WriteRefusal::NoMemory
    }
}
