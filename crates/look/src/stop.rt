ghost use Rattle.std.specs.Prelude.{◌≡◌};
ghost use Rattle.look.specs.declared.stop.Stop.TheVariants.{NoMemory as no_memory};

use gate_model::NoMemory;
use std::alloc::AllocError;

/// Why a run ended before it was done.
#[derive(Clone, Copy, Debug, PartialEq, Eq)]
pub enum Stop {
    /// The source failed.
    ReadFault,
    /// A sink failed.
    WriteFault,
    /// Want of memory.
    NoMemory,
}

impl From<NoMemory> for Stop {
    ghost from_gives = { λ _ e. e ≡ no_memory };

    fn from(_refused: NoMemory) -> Stop {
        Stop::NoMemory
    }
}

impl From<AllocError> for Stop {
    ghost from_gives = { λ _ e. e ≡ no_memory };

    fn from(_refused: AllocError) -> Stop {
        Stop::NoMemory
    }
}
