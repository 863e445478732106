ghost use Rattle.std.specs.Prelude.{◌≡◌};

use crate::{Counted, DialFault, Dialer, MemSink, MemSource};
use std::alloc::Global;
use std::marker::Model;

/// A dialer that hands out links in memory, in order. Contracts see it as `Links`.
#[derive(Drop)]
pub struct MemDialer {
    // The last comes first.
    links: Vec<(MemSource, MemSink)>,
    fail: Vec<u64>,
    calls: u64,
    faults: u64,
}

impl Model for MemDialer {
    ghost use Rattle.std.specs.Prelude.{reverse};
    ghost use Rattle.gate_outside.specs.Memory.{Links};

    ghost Value = { Links };

    ghost view = { λ s. record { left = reverse s.links.items; fail = s.fail.items; calls = s.calls; faults = s.faults } };
}

impl MemDialer {
    /// A dialer that hands out `links` and fails at the calls whose numbers, counted from 1, stand in `fail`.
    pub fn new(mut links: Vec<(MemSource, MemSink)>, fail: Vec<u64>) -> MemDialer
        ensures { result ≡ record { left = links.items; fail = fail.items; calls = 0; faults = 0 } }
    {
        links.reverse();
        MemDialer {
            links,
            fail,
            calls: 0,
            faults: 0,
        }
    }
}

impl Counted for MemDialer {
    ghost use Rattle.std.specs.Prelude.{None};

    ghost helper = { λ s. record { dial_faults = s.faults; start_faults = 0; draws = None } };
}

impl Dialer for MemDialer {
    ghost use Rattle.std.specs.Prelude.{◌≡◌, ◌↔◌, ◌≤◌, ◌∷◌, IfOk, IsErr, IsTrue};
    ghost use Rattle.gate_outside.specs.Edge.{CountsFault};
    ghost use Rattle.gate_outside.specs.Memory.{links_after, links_fail};
    ghost use Rattle.gate_outside.specs.Starts.{IsDialFailed};

    type Input = MemSource;

    type Output = MemSink;

    /// Fails exactly at a listed call and where no link is left; else hands out the first that is left.
    fn dial(
        &mut self,
        _alloc: Global,
        _host: &str,
        _port: u16,
    ) -> Result<(MemSource, MemSink), DialFault>
        ensures fails { IsErr result ↔ IsTrue (links_fail self.old) }
        ensures failed { IsErr result → IsDialFailed result }
        ensures first { IfOk result (λ link. self.old.left ≡ link ∷ self.new.left) }
        ensures after { self.new ≡ links_after self.old }

        // Of the trait's clauses, that which doesn't follow from the ones above.
        ensures dials { CountsFault (IsDialFailed result) self.old.faults self.new.faults }
    {
        self.calls = self.calls.saturating_add(1);
        if !self.fail.contains(&self.calls) {
            if let Some(link) = self.links.pop() {
                return Ok(link);
            }
        }
        self.faults = self.faults.saturating_add(1);
        Err(DialFault::Failed)
    }
}
