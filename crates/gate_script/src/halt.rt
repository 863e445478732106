ghost use Rattle.std.specs.Prelude.{◌≡◌};
ghost use Rattle.gate_script.specs.declared.halt.Halt.TheVariants.{NoMemory as no_memory};

use gate_model::NoMemory;
use std::alloc::{AllocError, AllocFailed};

/// Why a line wasn't done.
#[derive(Clone, Copy, Debug, PartialEq, Eq)]
pub(crate) enum Halt {
    /// Want of memory.
    NoMemory,
    /// It is outside the grammar.
    OutsideGrammar,
    /// The session has this many entries, and may have no more.
    Worn(u64),
}

impl From<NoMemory> for Halt {
    ghost from_gives = { λ _ e. e ≡ no_memory };

    fn from(_refused: NoMemory) -> Halt {
        Halt::NoMemory
    }
}

impl From<AllocError> for Halt {
    ghost from_gives = { λ _ e. e ≡ no_memory };

    fn from(_refused: AllocError) -> Halt {
        Halt::NoMemory
    }
}
