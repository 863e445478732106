ghost use Rattle.std.specs.Prelude.{◌≡◌, ℕ, List, Option, Err};
ghost use Rattle.gate_outside.specs.Edge.{CountsFault};
ghost use Rattle.ws_tunnel.specs.Links.{HasReceived, HasSent};
ghost use Rattle.ws_tunnel.specs.declared.got.LinkFailed.TheVariants.{Failed};

use crate::{Got, LinkFailed};
use std::sync::Wait;

/// A link on which messages come and go, each a text of bytes (this project's own). What it tells of itself is
/// optional: a real link doesn't tell.
pub trait Messages: Drop {
    /// The messages that are left, where the link tells them.
    ghost left: { Self → Option (List (List ℕ)) };

    /// The messages that were sent, the oldest first, where the link tells them.
    ghost sent: { Self → Option (List (List ℕ)) };

    /// How many calls have failed; the count stands still at 2^64 - 1.
    ghost faults: { Self → ℕ };

    /// Appends the next message, or says that the link was closed, which comes exactly where none is left. Refused, it
    /// takes none.
    fn receive<R: Wait>(&mut self, rt: &R, into: &mut Vec<u8>) -> Result<Got, LinkFailed>
        ensures received { HasReceived (left self.old) (left self.new) into.old.items into.new.items result }
        ensures sent { sent self.new ≡ sent self.old }
        ensures faults { CountsFault (result ≡ Err Failed) (faults self.old) (faults self.new) };

    /// Sends a message; refused, none.
    fn send<R: Wait>(&mut self, rt: &R, text: &[u8]) -> Result<(), LinkFailed>
        ensures sent { HasSent (sent self.old) (sent self.new) text.now result }
        ensures left { left self.new ≡ left self.old }
        ensures faults { CountsFault (result ≡ Err Failed) (faults self.old) (faults self.new) };
}
