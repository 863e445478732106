ghost use Rattle.std.specs.Prelude.{◌≡◌, ℕ, ◌<◌, ◌≤◌, List, length, take, Option, IfOk, IsErr, OnErr};
ghost use Rattle.gate_outside.specs.Edge.{CountsFault, gained, most_faults};

use crate::Failed;

/// Where bytes are written to (this project's own).
pub trait Sink: Drop {
    /// The bytes that were written, where the sink tells them.
    ghost written: { Self → Option (List ℕ) };

    /// How many writes have failed; the count stands still at 2^64 - 1.
    ghost faults: { Self → ℕ };

    /// Writes the first bytes of `piece`, which isn't empty, and answers how many: at least one. A fault
    /// writes no byte.
    fn write(&mut self, piece: &[u8]) -> Result<usize, Failed>
        requires { 0 < length piece.now }
        ensures some { IfOk result (λ n. 0 < n) }
        ensures bound { IfOk result (λ n. n ≤ length piece.now) }
        ensures ok { IfOk result (λ n. written self.new ≡ gained (written self.old) (take n piece.now)) }
        ensures unchanged { OnErr result (written self.new ≡ written self.old) }
        ensures few { faults self.old ≤ most_faults → faults self.new ≤ most_faults }
        ensures faults { CountsFault (IsErr result) (faults self.old) (faults self.new) };

    /// Says that nothing more will be written. Over a connection both of its directions end, so that a
    /// read that waits on the other end of it returns. It tells nothing and is no write.
    fn finish(&mut self)
        ensures unchanged { written self.new ≡ written self.old }
        ensures faults { faults self.new ≡ faults self.old };
}
