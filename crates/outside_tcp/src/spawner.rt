//! Starting threads.

ghost use Rattle.std.specs.Prelude.{None};

use gate_outside::{Counted, Spawner, Way};

/// Starts each job in a thread of its own.
#[derive(Drop)]
pub struct ThreadSpawner {
    faults: u64,
}

impl ThreadSpawner {
    /// A spawner that has failed at no start.
    pub fn new() -> ThreadSpawner {
        ThreadSpawner { faults: 0 }
    }
}

impl Counted for ThreadSpawner {
    ghost helper = { λ s. record { dial_faults = 0; start_faults = s.faults; draws = None } };
}

impl Spawner for ThreadSpawner {
    ghost refuses = { λ _. None };

    fn way(&mut self) -> Way {
        Way::Thread
    }

    fn note(&mut self) {
        self.faults = self.faults.saturating_add(1);
    }
}
