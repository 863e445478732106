ghost use Rattle.std.specs.Prelude.{◌≡◌};
ghost use Rattle.gate_model.specs.declared.read_refusal.ReadRefusal.TheVariants.{NoMemory as no_memory};

use crate::NoMemory;
use std::alloc::AllocError;

/// Why a read was refused; the first cause that holds is given (this project's own rule).
#[derive(Clone, Copy, Debug, PartialEq, Eq)]
pub enum ReadRefusal {
    /// The viewer never joined, or has left.
    NoViewer,
    /// The session has this many entries, and may have no more.
    Worn { entries: u64 },
    /// Want of memory.
    NoMemory,
}

impl From<NoMemory> for ReadRefusal {
    ghost from_gives = { λ _ e. e ≡ no_memory };

    fn from(_refused: NoMemory) -> ReadRefusal {
        ReadRefusal::NoMemory
    }
}

impl From<AllocError> for ReadRefusal {
    ghost from_gives = { λ _ e. e ≡ no_memory };

    fn from(_refused: AllocError) -> ReadRefusal {
        ReadRefusal::NoMemory
    }
}
