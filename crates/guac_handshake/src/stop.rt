ghost use Rattle.std.specs.Prelude.{◌≡◌};
ghost use Rattle.guac_handshake.specs.declared.stop.Stop.TheVariants.{NoMemory as no_memory};

use gate_model::NoMemory;
use std::alloc::AllocError;

/// Why a greeting stopped.
#[derive(Clone, Copy)]
pub(crate) enum Stop {
    Refused(u16),
    Ended,
    ReadFault,
    WriteFault,
    NoMemory,
}

impl From<NoMemory> for Stop {
    ghost from_gives = { λ _ e. e ≡ no_memory };

    fn from(_refused: NoMemory) -> Stop {
        Stop::NoMemory
    }
}

impl From<AllocError> for Stop {
    ghost from_gives = { λ _ e. e ≡ no_memory };

    fn from(_refused: AllocError) -> Stop {
        Stop::NoMemory
    }
}
