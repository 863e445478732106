ghost use Rattle.std.specs.Prelude.{◌≤◌, ℕ, IsErr};
ghost use Rattle.gate_outside.specs.Edge.{CountsFault};
ghost use Rattle.gate_outside.specs.Starts.{IsDialFailed};

use crate::{Bell, DialFault, Dialer, Failed, Helper};
use gate_model::NoMemory;
use std::alloc::Global;
use std::sync::Wait;

/// Where connections come from, and what a service hands to those who serve them (this project's own).
pub trait Net: Drop {
    /// The helper of one connection.
    type Help: Helper;

    /// The service's bell.
    type Chime: Bell + Send + Sync + 'static;

    /// How many calls of `listen` and `accept` have failed; the count stands still at 2^64 - 1.
    ghost net_faults: { Self → ℕ };

    /// Listens on the port, 1 to 65535. The dice of the helpers draw under the seed. It comes once, before
    /// the other calls. Failed comes only where the count of faults rose in this call.
    fn listen(&mut self, alloc: Global, port: u16, seed: [u8; 32]) -> Result<(), DialFault>
        ensures faults { CountsFault (IsDialFailed result) (net_faults self.old) (net_faults self.new) };

    /// The two ends of the next connection. A fault comes only where the count of faults rose in this call.
    fn accept<R: Wait>(
        &mut self,
        rt: &R,
    ) -> Result<
        (
            <Self::Help as Dialer>::Input,
            <Self::Help as Dialer>::Output,
        ),
        Failed,
    >
        ensures faults { CountsFault (IsErr result) (net_faults self.old) (net_faults self.new) };

    /// A helper.
    fn helper(&mut self, alloc: Global) -> Result<Self::Help, NoMemory>
        ensures later { net_faults self.old ≤ net_faults self.new };

    /// A bell that rings and waits with all that this net gives.
    fn bell(&mut self, alloc: Global) -> Result<Self::Chime, NoMemory>
        ensures later { net_faults self.old ≤ net_faults self.new };
}
