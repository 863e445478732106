ghost use Rattle.std.specs.Prelude.{◌≡◌};
ghost use Rattle.http_front.specs.declared.stop.Stop.TheVariants.{NoMemory as no_memory};

use std::alloc::AllocError;

/// Why no request came of a source.
#[derive(Clone, Copy)]
pub(crate) enum Stop {
    Refused(u16),
    Ended,
    ReadFault,
    NoMemory,
}

impl From<AllocError> for Stop {
    ghost from_gives = { λ _ e. e ≡ no_memory };

    fn from(_refused: AllocError) -> Stop {
        Stop::NoMemory
    }
}
