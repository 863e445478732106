ghost use Rattle.std.specs.Prelude.{◌≡◌};
ghost use Rattle.gate_outside.specs.Nets.{links_of};

use crate::{DialFault, Failed, MemBell, MemHelper, MemSink, MemSource, Net};
use gate_model::NoMemory;
use std::alloc::Global;
use std::sync::Wait;

/// A net in memory, which hands out connections and helpers in order. Contracts see its connections as
/// `Links`: its calls of `listen` and `accept` are numbered together.
#[derive(Drop)]
pub struct MemNet {
    // The last comes first, of both.
    links: Vec<(MemSource, MemSink)>,
    helpers: Vec<MemHelper>,
    fail: Vec<u64>,
    calls: u64,
    faults: u64,
}

impl MemNet {
    /// A net that hands out `connections` and `helpers`, and fails at the calls of `listen` and `accept` whose
    /// numbers, counted from 1, stand in `fail`.
    pub fn new(
        mut connections: Vec<(MemSource, MemSink)>,
        mut helpers: Vec<MemHelper>,
        fail: Vec<u64>,
    ) -> MemNet
        ensures { links_of result ≡ record { left = connections.items; fail = fail.items; calls = 0; faults = 0 } }
    {
        connections.reverse();
        helpers.reverse();
        MemNet {
            links: connections,
            helpers,
            fail,
            calls: 0,
            faults: 0,
        }
    }
}

impl Net for MemNet {
    ghost use Rattle.std.specs.Prelude.{◌≡◌, ◌↔◌, ◌≤◌, ◌∷◌, IfOk, IsErr, IsTrue};
    ghost use Rattle.gate_outside.specs.Edge.{CountsFault};
    ghost use Rattle.gate_outside.specs.Memory.{links_after, links_fail};
    ghost use Rattle.gate_outside.specs.Nets.{links_of, listens_after, listen_fails};
    ghost use Rattle.gate_outside.specs.Starts.{IsDialFailed};

    type Help = MemHelper;

    type Chime = MemBell;

    ghost net_faults = { λ s. s.faults };

    /// Fails exactly at a listed call.
    fn listen(&mut self, _alloc: Global, _port: u16, _seed: [u8; 32]) -> Result<(), DialFault>
        ensures fails { IsErr result ↔ IsTrue (listen_fails (links_of self.old)) }
        ensures failed { IsErr result → IsDialFailed result }
        ensures after { links_of self.new ≡ listens_after (links_of self.old) }

        // Of the trait's clauses, that which doesn't follow from the ones above.
        ensures faults { CountsFault (IsDialFailed result) (links_of self.old).faults (links_of self.new).faults }
    {
        self.calls = self.calls.saturating_add(1);
        if self.fail.contains(&self.calls) {
            self.faults = self.faults.saturating_add(1);
            return Err(DialFault::Failed);
        }
        Ok(())
    }

    /// Fails exactly at a listed call and where no connection is left; else hands out the first that is left.
    fn accept<R: Wait>(&mut self, _rt: &R) -> Result<(MemSource, MemSink), Failed>
        ensures fails { IsErr result ↔ IsTrue (links_fail (links_of self.old)) }
        ensures first { IfOk result (λ link. (links_of self.old).left ≡ link ∷ (links_of self.new).left) }
        ensures after { links_of self.new ≡ links_after (links_of self.old) }

        // Of the trait's clauses, that which doesn't follow from the ones above.
        ensures faults { CountsFault (IsErr result) (links_of self.old).faults (links_of self.new).faults }
    {
        self.calls = self.calls.saturating_add(1);
        if !self.fail.contains(&self.calls) {
            if let Some(link) = self.links.pop() {
                return Ok(link);
            }
        }
        self.faults = self.faults.saturating_add(1);
        Err(Failed)
    }

    fn helper(&mut self, _alloc: Global) -> Result<MemHelper, NoMemory> {
        self.helpers.pop().ok_or(NoMemory)
    }

    fn bell(&mut self, _alloc: Global) -> Result<MemBell, NoMemory> {
        Ok(MemBell::new())
    }
}
