ghost use Rattle.std.specs.Prelude.{◌≡◌};
ghost use Rattle.gate_model.specs.declared.join_refusal.JoinRefusal.TheVariants.{NoMemory as no_memory};

use crate::{Cause, NoMemory};
use std::alloc::AllocError;

/// Why a joiner was refused; the first cause that holds is given (this project's own rule).
#[derive(Clone, Copy, Debug, PartialEq, Eq)]
pub enum JoinRefusal {
    /// The session was closed.
    Closed(Cause),
    /// The session's share mode doesn't allow what was asked.
    Forbidden,
    /// So many viewers are there, and so many have joined.
    TooMany { live: u32, joined: u32 },
    /// The session has this many entries, and may have no more.
    Worn { entries: u64 },
    /// Want of memory.
    NoMemory,
}

impl From<NoMemory> for JoinRefusal {
    ghost from_gives = { λ _ e. e ≡ no_memory };

    fn from(_refused: NoMemory) -> JoinRefusal {
        JoinRefusal::NoMemory
    }
}

impl From<AllocError> for JoinRefusal {
    ghost from_gives = { λ _ e. e ≡ no_memory };

    fn from(_refused: AllocError) -> JoinRefusal {
        JoinRefusal::NoMemory
    }
}
