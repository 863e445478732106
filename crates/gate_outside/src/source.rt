ghost use Rattle.std.specs.Prelude.{◌≡◌, ℕ, ◌<◌, ◌≤◌, List, [], length, take, Option, Some, IfOk, IfSome, IsErr, OnErr};
ghost use Rattle.gate_outside.specs.Edge.{AtEnd, CountsFault, came, most_faults};

use crate::Failed;

/// Where bytes are read from (this project's own).
pub trait Source: Drop {
    /// The bytes that are left, where the source tells them.
    ghost left: { Self → Option (List ℕ) };

    /// How many reads have failed; the count stands still at 2^64 - 1.
    ghost faults: { Self → ℕ };

    /// Puts the first bytes that are left at the front of `into`, which isn't empty, and answers how
    /// many: none where the source is at its end. A fault takes no byte, and leaves `into` as it was where
    /// the source tells what is left.
    fn read(&mut self, into: &mut [u8]) -> Result<usize, Failed>
        requires { 0 < length into.old }
        ensures bound { IfOk result (λ n. n ≤ length into.old) }
        ensures ok { IfOk result (λ n. left self.old ≡ came (take n into.new) (left self.new)) }

        // Where the source tells what is left, none comes exactly at its end.
        ensures end { IfOk result (λ n. n ≡ 0 → AtEnd (left self.old)) }
        ensures empty { IfOk result (λ n. left self.old ≡ Some [] → n ≡ 0) }
        ensures unchanged { OnErr result (left self.new ≡ left self.old) }
        ensures untouched { OnErr result (IfSome (left self.old) (λ _. into.new ≡ into.old)) }
        ensures few { faults self.old ≤ most_faults → faults self.new ≤ most_faults }
        ensures faults { CountsFault (IsErr result) (faults self.old) (faults self.new) };
}
