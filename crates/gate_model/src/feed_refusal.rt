ghost use Rattle.std.specs.Prelude.{◌≡◌};
ghost use Rattle.gate_model.specs.declared.feed_refusal.FeedRefusal.TheVariants.{NoMemory as no_memory};

use crate::{Cause, NoMemory};
use std::alloc::AllocError;

/// Why bytes of the Telnet host were refused; the first cause that holds is given (this project's own
/// rule).
#[derive(Clone, Copy, Debug, PartialEq, Eq)]
pub enum FeedRefusal {
    /// The session was closed.
    Closed(Cause),
    /// The session has this many entries, and may have no more.
    Worn { entries: u64 },
    /// Want of memory.
    NoMemory,
}

impl From<NoMemory> for FeedRefusal {
    ghost from_gives = { λ _ e. e ≡ no_memory };

    fn from(_refused: NoMemory) -> FeedRefusal {
        FeedRefusal::NoMemory
    }
}

impl From<AllocError> for FeedRefusal {
    ghost from_gives = { λ _ e. e ≡ no_memory };

    fn from(_refused: AllocError) -> FeedRefusal {
        FeedRefusal::NoMemory
    }
}
