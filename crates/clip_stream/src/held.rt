//! Bytes that came and weren't given yet.

ghost use Rattle.std.specs.Prelude.{◌≡◌, ℕ, List, length, min, take};

use gate_model::NoMemory;
use gate_model::limits::MOST_INSTRUCTION;
use gate_outside::{Failed, Source};
use std::alloc::Global;
use std::marker::Model;

/// Bytes that came and weren't given yet: at most one instruction, in room that was taken before. Contracts see their
/// list.
#[derive(Drop)]
pub(crate) struct Held {
    bytes: Vec<u8>,
    start: usize,
    end: usize,
}

impl Model for Held {
    ghost use Rattle.std.specs.Prelude.{ℕ, List, ◌≡◌, ◌≤◌, ◌-◌, vec_len, take, drop};

    ghost Value = { List ℕ };

    ghost view = { λ h. take (h.end - h.start) (drop h.start h.bytes.items) };

    ghost invariant = { λ h. (h.start ≤ h.end) × (h.end ≤ vec_len h.bytes) × (vec_len h.bytes ≡ 8192) };
}

impl Held {
    ghost use Rattle.std.specs.Prelude.{◌≡◌, ◌<◌, ◌≤◌, ◌++◌, ◌-◌, [], List, ℕ, true, false, length, drop, take, min, IfOk, IsErr, OnErr};
    ghost use Rattle.gate_outside.specs.Edge.{AtEnd, CountsFault, came, most_faults};

    /// None, with room for an instruction.
    pub(crate) fn new(alloc: Global) -> Result<Held, NoMemory>
        ensures { IfOk result (λ held. held ≡ []) }
    {
        let bytes = vec![in alloc; 0; MOST_INSTRUCTION]?;
        Ok(Held {
            bytes,
            start: 0,
            end: 0,
        })
    }

    /// The bytes, lent.
    pub(crate) fn as_slice(&self) -> &[u8]
        ensures { result.now ≡ self.now }
    {
        &self.bytes[self.start..self.end]
    }

    /// How many there are.
    pub(crate) fn len(&self) -> usize
        ensures { result ≡ length self.now }
    {
        self.end - self.start
    }

    /// Lets go of the first, so many.
    pub(crate) fn pass(&mut self, count: usize)
        requires { count ≤ length self.old }
        ensures { self.new ≡ drop count self.old }
    {
        self.start += count;
    }

    /// Gives the first, at most so many.
    pub(crate) fn give(&mut self, most: usize, into: &mut [u8]) -> usize
        requires { most ≤ length self.old }
        ensures count { result ≡ min most (length into.old) }
        ensures given { take result into.new ≡ take result self.old }
        ensures left { self.new ≡ drop result self.old }
    {
        let n = most.min(into.len());
        into[..n].copy_from_slice(&self.as_slice()[..n]);
        self.pass(n);
        n
    }

    /// Puts bytes behind those that are there, as many as there is room for, and answers how many.
    pub(crate) fn fill(&mut self, bytes: &[u8]) -> usize
        ensures count { result ≡ min (length bytes.now) (8192 - length self.old) }
        ensures moved { self.new ≡ self.old ++ take result bytes.now }
    {
        self.bytes.rotate_left(self.start);
        self.end -= self.start;
        self.start = 0;
        let count = copy_front(bytes, &mut self.bytes[self.end..]);
        self.end += count;
        count
    }

    /// Reads once, and answers whether bytes came; they stand behind those that are there. Where none came the source
    /// is at its end. There is room for at least one more.
    pub(crate) fn read<S: Source>(&mut self, source: &mut S) -> Result<bool, Failed>
        requires { length self.old < 8192 }
        ensures moved { (bytes : List ℕ) × (S.left source.old ≡ came bytes (S.left source.new)) × (self.new ≡ self.old ++ bytes) }
        ensures more { IfOk result (λ more. more ≡ true → length self.old < length self.new) }
        ensures end { IfOk result (λ more. more ≡ false → (self.new ≡ self.old) × AtEnd (S.left source.new)) }
        ensures stopped { OnErr result (self.new ≡ self.old) }
        ensures faults { CountsFault (IsErr result) (S.faults source.old) (S.faults source.new) }
        ensures few { S.faults source.old ≤ most_faults → S.faults source.new ≤ most_faults }
    {
        self.bytes.rotate_left(self.start);
        self.end -= self.start;
        self.start = 0;
        let count = source.read(&mut self.bytes[self.end..])?;
        self.end += count;
        Ok(count > 0)
    }
}

// Copies the first bytes to the front of a room, as many as there is room for, and answers how many.
fn copy_front(bytes: &[u8], into: &mut [u8]) -> usize
    ensures count { result ≡ min (length bytes.now) (length into.old) }
    ensures copied { take result into.new ≡ take result bytes.now }
{
    let count = bytes.len().min(into.len());
    into[..count].copy_from_slice(&bytes[..count]);
    count
}
