//! Ends that show whether a run answers each line before it reads the next one, and one that keeps a sum alone.

ghost use Rattle.std.specs.Prelude.{None};

use gate_outside::{Failed, Sink, Source};
use std::cell::Cell;
use std::rc::Rc;

/// Gives the lines of a text, one a read. It counts the reads that came before the lines that were given
/// were answered, each by one line.
#[derive(Drop)]
pub struct LineSource {
    pub text: Vec<u8>,
    pub at: usize,
    pub given: u64,
    pub early: u64,
    pub answered: Rc<Cell<u64>>,
}

impl Source for LineSource {
    ghost left = { λ _. None };

    ghost faults = { λ _. 0 };

    fn read(&mut self, into: &mut [u8]) -> Result<usize, Failed> {
        if self.answered.get() < self.given {
            self.early = self.early.saturating_add(1);
        }
        let rest = self.text.get(self.at..).unwrap_or(&[]);
        let length = match rest.iter().position(|byte| *byte == b'\n') {
            Some(place) => place + 1,
            None => rest.len(),
        };
        let count = length.min(into.len());
        into[..count].copy_from_slice(&rest[..count]);
        self.at = self.at.saturating_add(count);
        if count > 0 {
            self.given = self.given.saturating_add(1);
        }
        Ok(count)
    }
}

/// Counts the lines that are written.
#[derive(Drop)]
pub struct LineSink {
    pub answered: Rc<Cell<u64>>,
}

impl Sink for LineSink {
    ghost written = { λ _. None };

    ghost faults = { λ _. 0 };

    fn write(&mut self, piece: &[u8]) -> Result<usize, Failed> {
        let lines = piece.iter().filter(|byte| **byte == b'\n').count() as u64;
        self.answered.set(self.answered.get().saturating_add(lines));
        Ok(piece.len())
    }

    fn finish(&mut self) {}
}

/// Keeps how many bytes are written, and a sum over them that other bytes hardly have.
#[derive(Clone, Copy, Debug, PartialEq, Eq)]
pub struct Tally {
    pub count: u64,
    pub sum: u64,
}

impl Sink for Tally {
    ghost written = { λ _. None };

    ghost faults = { λ _. 0 };

    fn write(&mut self, piece: &[u8]) -> Result<usize, Failed> {
        self.count = self.count.wrapping_add(piece.len() as u64);
        for byte in piece {
            self.sum = self.sum.wrapping_mul(0x100_0000_01b3) ^ u64::from(*byte);
        }
        Ok(piece.len())
    }

    fn finish(&mut self) {}
}
