ghost use Rattle.std.specs.Prelude.{◌≡◌};
ghost use Rattle.gate_script.specs.declared.stop.Stop.TheVariants.{NoMemory as no_memory};

use crate::refused::Refused;
use gate_model::NoMemory;
use std::alloc::{AllocError, AllocFailed};

/// Why a run ended before its input did.
#[derive(Clone, Copy, Debug, PartialEq, Eq)]
pub(crate) enum Stop {
    /// The source failed.
    ReadFault,
    /// A sink failed.
    WriteFault,
    /// Want of memory.
    NoMemory,
    /// A line was refused.
    Refused(Refused),
}

impl From<NoMemory> for Stop {
    ghost from_gives = { λ _ e. e ≡ no_memory };

    fn from(_refused: NoMemory) -> Stop {
        Stop::NoMemory
    }
}

impl From<AllocError> for Stop {
    ghost from_gives = { λ _ e. e ≡ no_memory };

    fn from(_refused: AllocError) -> Stop {
        Stop::NoMemory
    }
}
