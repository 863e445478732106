ghost use Rattle.std.specs.Prelude.{◌≡◌, ◌<◌};

use crate::copying::copy_front;
use crate::{Failed, Source};
use std::marker::Model;

/// A source over bytes in memory that never fails: its count of faults is 0. Contracts see what is left
/// and the most bytes of a call.
#[derive(Drop)]
pub struct SureSource {
    bytes: Vec<u8>,
    at: usize,
    most: usize,
}

impl Model for SureSource {
    ghost use Rattle.std.specs.Prelude.{ℕ, List, ◌<◌, ◌≤◌, drop, length};

    ghost Value = { List ℕ × ℕ };

    ghost view = { λ s. (drop s.at s.bytes.items, s.most) };

    ghost invariant = { λ s. (s.at ≤ length s.bytes.items) × (0 < s.most) };
}

impl SureSource {
    /// A source of `bytes` that gives at most `most` bytes a call; `most` is at least 1.
    pub fn new(bytes: Vec<u8>, most: usize) -> SureSource
        requires { 0 < most }
        ensures { result ≡ (bytes.items, most) }
    {
        SureSource { bytes, at: 0, most }
    }
}

impl Source for SureSource {
    ghost use Rattle.std.specs.Prelude.{◌≡◌, ◌<◌, IfOk, IsOk, Some, [], min, length, take, drop};

    ghost left = { λ s. Some s.0 };

    ghost faults = { λ _. 0 };

    /// Gives as many bytes as `most`, `into` and what is left allow.
    fn read(&mut self, into: &mut [u8]) -> Result<usize, Failed>
        requires { 0 < length into.old }
        ensures sure { IsOk result }
        ensures count { IfOk result (λ n. n ≡ min self.old.1 (min (length into.old) (length self.old.0))) }
        ensures bytes { IfOk result (λ n. take n into.new ≡ take n self.old.0) }
        ensures after { IfOk result (λ n. self.new ≡ (drop n self.old.0, self.old.1)) }
        ensures end { IfOk result (λ n. n ≡ 0 → self.old.0 ≡ []) }
    {
        let n = copy_front(&self.bytes[self.at..], self.most, into);
        self.at += n;
        Ok(n)
    }
}
