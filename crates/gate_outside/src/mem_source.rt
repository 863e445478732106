ghost use Rattle.std.specs.Prelude.{◌≡◌, ◌<◌};

use crate::copying::copy_front;
use crate::{Failed, Source};
use std::marker::Model;

/// A source over bytes in memory, which fails at listed calls. Contracts see it as a `Supply`.
#[derive(Drop)]
pub struct MemSource {
    bytes: Vec<u8>,
    at: usize,
    most: usize,
    fail: Vec<u64>,
    calls: u64,
    faults: u64,
}

impl Model for MemSource {
    ghost use Rattle.std.specs.Prelude.{◌<◌, ◌≤◌, drop, length};
    ghost use Rattle.gate_outside.specs.Memory.{Supply};

    ghost Value = { Supply };

    ghost view = { λ s. record { left = drop s.at s.bytes.items; most = s.most; fail = s.fail.items; calls = s.calls; faults = s.faults } };

    ghost invariant = { λ s. (s.at ≤ length s.bytes.items) × (0 < s.most) };
}

impl MemSource {
    /// A source of `bytes` that gives at most `most` bytes a call, `most` at least 1, and fails at the
    /// calls whose numbers, counted from 1, stand in `fail`.
    pub fn new(bytes: Vec<u8>, most: usize, fail: Vec<u64>) -> MemSource
        requires { 0 < most }
        ensures { result ≡ record { left = bytes.items; most = most; fail = fail.items; calls = 0; faults = 0 } }
    {
        MemSource {
            bytes,
            at: 0,
            most,
            fail,
            calls: 0,
            faults: 0,
        }
    }
}

impl Source for MemSource {
    ghost use Rattle.std.specs.Prelude.{◌≡◌, ◌<◌, ◌↔◌, IfOk, IsErr, IsTrue, OnErr, Some, [], ◌≤◌, length, take};
    ghost use Rattle.gate_outside.specs.Edge.{CountsFault};
    ghost use Rattle.gate_outside.specs.Memory.{supply_after, supply_count, supply_fails};

    ghost left = { λ s. Some s.left };

    ghost faults = { λ s. s.faults };

    /// Fails exactly at a listed call; else gives as many bytes as `most`, `into` and what is left allow.
    fn read(&mut self, into: &mut [u8]) -> Result<usize, Failed>
        requires { 0 < length into.old }
        ensures fails { IsErr result ↔ IsTrue (supply_fails self.old) }
        ensures count { IfOk result (λ n. n ≡ supply_count self.old (length into.old)) }
        ensures bytes { IfOk result (λ n. take n into.new ≡ take n self.old.left) }
        ensures after { self.new ≡ supply_after self.old (length into.old) }
        ensures untouched { OnErr result (into.new ≡ into.old) }

        // Of the trait's clauses, those that don't follow from the ones above.
        ensures end { IfOk result (λ n. n ≡ 0 → self.old.left ≡ []) }
        ensures faults { CountsFault (IsErr result) self.old.faults self.new.faults }
    {
        self.calls = self.calls.saturating_add(1);
        if self.fail.contains(&self.calls) {
            self.faults = self.faults.saturating_add(1);
            return Err(Failed);
        }
        let n = copy_front(&self.bytes[self.at..], self.most, into);
        self.at += n;
        Ok(n)
    }
}
