ghost use Rattle.std.specs.Prelude.{◌≡◌, OnOk};
ghost use Rattle.gate_outside.specs.Helpers.{Dials};
ghost use Rattle.gate_outside.specs.Starts.{IsDialFailed};
ghost use Rattle.gate_outside.specs.declared.dialer.DialFault.TheVariants.{NoMemory as no_memory};

use crate::{Counted, Sink, Source};
use gate_model::NoMemory;
use std::alloc::Global;

/// Why a host wasn't dialed.
#[derive(Clone, Copy, Debug, PartialEq, Eq)]
pub enum DialFault {
    /// The host couldn't be reached.
    Failed,
    /// Want of memory.
    NoMemory,
}

impl From<NoMemory> for DialFault {
    ghost from_gives = { λ _ e. e ≡ no_memory };

    fn from(_refused: NoMemory) -> DialFault {
        DialFault::NoMemory
    }
}

/// Dials hosts (this project's own). A link has an end to read from and one to write to, each for a thread
/// of its own.
pub trait Dialer: Counted {
    /// The end to read from.
    type Input: Source + Send + 'static;

    /// The end to write to.
    type Output: Sink + Send + 'static;

    /// Dials the port of the host. Failed comes only where the count of dials that failed rose in this call.
    fn dial(
        &mut self,
        alloc: Global,
        host: &str,
        port: u16,
    ) -> Result<(Self::Input, Self::Output), DialFault>
        ensures dials { Dials (IsDialFailed result) (Self.helper self.old) (Self.helper self.new) }
        ensures none { OnOk result (Self.helper self.new ≡ Self.helper self.old) };
}
