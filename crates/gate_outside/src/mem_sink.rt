ghost use Rattle.std.specs.Prelude.{◌≡◌, ◌<◌, IfOk, []};

use crate::{Failed, Sink};
use gate_model::NoMemory;
use std::alloc::Global;
use std::marker::Model;

/// A sink into memory, with a fixed room, which fails at listed calls. Contracts see it as a `Store`.
#[derive(Drop)]
pub struct MemSink {
    held: Vec<u8>,
    room: usize,
    most: usize,
    fail: Vec<u64>,
    calls: u64,
    faults: u64,
}

impl Model for MemSink {
    ghost use Rattle.std.specs.Prelude.{◌<◌, ◌≤◌, vec_capacity};
    ghost use Rattle.gate_outside.specs.Memory.{Store};

    ghost Value = { Store };

    ghost view = { λ s. record { held = s.held.items; room = s.room; most = s.most; fail = s.fail.items; calls = s.calls; faults = s.faults } };

    ghost invariant = { λ s. (s.room ≤ vec_capacity s.held) × (0 < s.most) };
}

impl MemSink {
    /// A sink with room for `room` bytes, all of it taken here, that takes at most `most` bytes a call,
    /// `most` at least 1, and fails at the calls whose numbers, counted from 1, stand in `fail`.
    pub fn new(alloc: Global, room: usize, most: usize, fail: Vec<u64>) -> Result<MemSink, NoMemory>
        requires { 0 < most }
        ensures ok { IfOk result (λ s. s ≡ record { held = []; room = room; most = most; fail = fail.items; calls = 0; faults = 0 }) }
    {
        let held = Vec::with_capacity(alloc, room)?;
        Ok(MemSink {
            held,
            room,
            most,
            fail,
            calls: 0,
            faults: 0,
        })
    }

    /// The bytes that it took.
    pub fn written(&self) -> &[u8]
        ensures { result.now ≡ self.now.held }
    {
        self.held.as_slice()
    }
}

impl Sink for MemSink {
    ghost use Rattle.std.specs.Prelude.{◌≡◌, ◌<◌, ◌↔◌, IfOk, IsErr, IsTrue, Some, ◌≤◌, length};
    ghost use Rattle.gate_outside.specs.Edge.{CountsFault};
    ghost use Rattle.gate_outside.specs.Memory.{store_after, store_count, store_fails};

    ghost written = { λ s. Some s.held };

    ghost faults = { λ s. s.faults };

    /// Fails exactly at a listed call and where `room` bytes were taken; else takes as many bytes as
    /// `most`, `piece` and the room allow. It takes no memory.
    fn write(&mut self, piece: &[u8]) -> Result<usize, Failed>
        requires { 0 < length piece.now }
        ensures fails { IsErr result ↔ IsTrue (store_fails self.old) }
        ensures count { IfOk result (λ n. n ≡ store_count self.old (length piece.now)) }
        ensures after { self.new ≡ store_after self.old piece.now }

        // Of the trait's clauses, those that don't follow from the ones above.
        ensures some { IfOk result (λ n. 0 < n) }
        ensures faults { CountsFault (IsErr result) self.old.faults self.new.faults }
    {
        self.calls = self.calls.saturating_add(1);
        let taken = self.held.len();
        if self.fail.contains(&self.calls) || self.room <= taken {
            self.faults = self.faults.saturating_add(1);
            return Err(Failed);
        }
        let n = self.most.min(piece.len().min(self.room - taken));
        self.held.extend_from_slice(&piece[..n]).unwrap();
        Ok(n)
    }

    /// Does nothing.
    fn finish(&mut self)
        ensures same { self.new ≡ self.old }
    {}
}
