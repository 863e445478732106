ghost use Rattle.std.specs.Prelude.{◌≡◌, ◌<◌, length};

use crate::{Clock, Counted};
use std::marker::Model;

/// A clock that gives listed moments in order, and then the last again. Contracts see the moments that
/// are still listed, the next first.
#[derive(Drop)]
pub struct MemClock {
    moments: Vec<u64>,
    at: usize,
}

impl Model for MemClock {
    ghost use Rattle.std.specs.Prelude.{ℕ, List, ◌<◌, drop, length};

    ghost Value = { List ℕ };

    ghost view = { λ s. drop s.at s.moments.items };

    ghost invariant = { λ s. s.at < length s.moments.items };
}

impl MemClock {
    /// A clock that gives these moments, at least one.
    pub fn new(moments: Vec<u64>) -> MemClock
        requires { 0 < length moments.items }
        ensures { result ≡ moments.items }
    {
        MemClock { moments, at: 0 }
    }
}

impl Counted for MemClock {
    ghost use Rattle.std.specs.Prelude.{None};

    ghost helper = { λ _. record { dial_faults = 0; start_faults = 0; draws = None } };
}

impl Clock for MemClock {
    ghost use Rattle.std.specs.Prelude.{◌≡◌, Some, slice_get};
    ghost use Rattle.gate_outside.specs.Memory.{moments_after};

    /// Gives the next moment; the last is given again.
    fn now(&mut self) -> u64
        ensures next { slice_get self.old 0 ≡ Some result }
        ensures after { self.new ≡ moments_after self.old }
    {
        let moment = self.moments[self.at];
        if self.at + 1 < self.moments.len() {
            self.at += 1;
        }
        moment
    }
}
