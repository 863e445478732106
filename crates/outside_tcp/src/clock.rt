//! A clock that counts its looks.

ghost use Rattle.std.specs.Prelude.{◌≡◌, ◌+◌, None};
ghost use Rattle.gate_outside.specs.Edge.{one_more};

use gate_outside::{Clock, Counted};

/// A clock that gives 0, 1, 2 and so on, and stays at 2^64 - 1 (this project's own). A session's stamps are of
/// no day.
#[derive(Drop)]
pub struct CountClock {
    pub next: u64,
}

impl CountClock {
    /// A clock at 0.
    pub fn new() -> CountClock
        ensures { result.next ≡ 0 }
    {
        CountClock { next: 0 }
    }
}

impl Counted for CountClock {
    ghost helper = { λ _. record { dial_faults = 0; start_faults = 0; draws = None } };
}

impl Clock for CountClock {
    fn now(&mut self) -> u64
        ensures moment { result ≡ self.old.next }
        ensures next { self.new.next ≡ one_more self.old.next }
    {
        let now = self.next;
        self.next = now.saturating_add(1);
        now
    }
}
