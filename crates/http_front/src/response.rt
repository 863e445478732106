ghost use Rattle.std.specs.Prelude.{◌≡◌};
ghost use Rattle.http_front.specs.declared.response.ReplyFault.TheVariants.{NoMemory as no_memory};

use gate_model::{Bytes, NoMemory};
use std::alloc::AllocError;

/// A response (RFC 9112; the fields of its head are this project's own).
#[derive(Drop)]
pub struct Response {
    /// The status.
    pub status: u16,
    /// The Guacamole status that goes with it, and 0 where there is none.
    pub code: u16,
    /// The body.
    pub body: Bytes,
}

/// Why a response wasn't written whole.
#[derive(Clone, Copy, Debug, PartialEq, Eq)]
pub enum ReplyFault {
    /// A write failed.
    WriteFault,
    /// Want of memory.
    NoMemory,
}

impl From<AllocError> for ReplyFault {
    ghost from_gives = { λ _ e. e ≡ no_memory };

    fn from(_refused: AllocError) -> ReplyFault {
        ReplyFault::NoMemory
    }
}

impl From<NoMemory> for ReplyFault {
    ghost from_gives = { λ _ e. e ≡ no_memory };

    fn from(_refused: NoMemory) -> ReplyFault {
        ReplyFault::NoMemory
    }
}
