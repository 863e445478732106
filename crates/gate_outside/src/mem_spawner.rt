ghost use Rattle.std.specs.Prelude.{None, Some};
ghost use Rattle.gate_outside.specs.Edge.{one_more};
ghost use Rattle.gate_outside.specs.Memory.{is_listed};

use crate::{Counted, Spawner, Way};

/// A spawner that runs each job in the call, and refuses exactly the listed calls. It tells whether it
/// refuses the next.
#[derive(Drop)]
pub struct MemSpawner {
    fail: Vec<u64>,
    calls: u64,
    faults: u64,
}

impl MemSpawner {
    /// A spawner that refuses the calls whose numbers, counted from 1, stand in `fail`.
    pub fn new(fail: Vec<u64>) -> MemSpawner {
        MemSpawner {
            fail,
            calls: 0,
            faults: 0,
        }
    }
}

impl Counted for MemSpawner {
    ghost helper = { λ s. record { dial_faults = 0; start_faults = s.faults; draws = None } };
}

impl Spawner for MemSpawner {
    ghost refuses = { λ s. Some (is_listed s.fail.items (one_more s.calls)) };

    fn way(&mut self) -> Way {
        self.calls = self.calls.saturating_add(1);
        if self.fail.contains(&self.calls) {
            Way::Refused
        } else {
            Way::Here
        }
    }

    fn note(&mut self) {
        self.faults = self.faults.saturating_add(1);
    }
}
