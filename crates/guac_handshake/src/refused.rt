ghost use Rattle.std.specs.Prelude.{◌≡◌};
ghost use Rattle.guac_handshake.specs.declared.refused.Refused.TheVariants.{NoMemory as no_memory};

use gate_model::NoMemory;
use std::alloc::AllocError;

/// Why a door gave no place (this project's own).
#[derive(Clone, Copy, Debug, PartialEq, Eq)]
pub enum Refused {
    /// There is no session of that ID.
    Absent,
    /// Four drawn IDs were all there.
    Conflict,
    /// The host couldn't be dialed.
    Dial,
    /// A job couldn't be started.
    Busy,
    /// The session was closed.
    Closed,
    /// The session's share mode doesn't allow what was asked.
    Forbidden,
    /// Too many viewers are there, or have joined.
    TooMany,
    /// The session has as many entries as it may.
    Worn,
    /// Want of memory.
    NoMemory,
}

impl From<NoMemory> for Refused {
    ghost from_gives = { λ _ e. e ≡ no_memory };

    fn from(_refused: NoMemory) -> Refused {
        Refused::NoMemory
    }
}

impl From<AllocError> for Refused {
    ghost from_gives = { λ _ e. e ≡ no_memory };

    fn from(_refused: AllocError) -> Refused {
        Refused::NoMemory
    }
}
