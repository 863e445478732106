ghost use Rattle.std.specs.Prelude.{◌≡◌, ℕ, ◌+◌, ◌<◌, ◌^◌, ◌∷◌, ◌++◌, [], None, length, drop, option_copied, OnErr, OnOk};
ghost use Rattle.std.specs.List.{last_or};
ghost use Rattle.display_history.specs.Keeping.{AreRising, TakesOldest, after_stamp, text_bytes};

use crate::kept::Kept;
use gate_model::NoMemory;
use std::alloc::Global;
use std::marker::Model;

/// Frames, oldest first, which contracts see as the list of their stamps and texts.
#[derive(Drop)]
pub(crate) struct Queue {
    alloc: Global,
    frames: Vec<Kept>,
    // The frames before this place are gone: their texts are empty.
    front: usize,
    // The bytes of text of the others.
    bytes: usize,
}

impl Model for Queue {
    ghost use Rattle.std.specs.Prelude.{ℕ, List, ◌≡◌, ◌≤◌, length, drop};
    ghost use Rattle.display_history.specs.Keeping.{text_bytes};

    ghost Value = { List (ℕ × List ℕ) };

    ghost view = { λ q. drop q.front q.frames.items };

    ghost invariant = { λ q. (q.front ≤ length q.frames.items) × (q.bytes ≡ text_bytes (drop q.front q.frames.items)) };
}

impl Queue {
    /// No frame.
    pub(crate) fn new(alloc: Global) -> Queue
        ensures { result ≡ [] }
    {
        Queue {
            alloc,
            frames: Vec::new(alloc),
            front: 0,
            bytes: 0,
        }
    }

    /// How many frames there are.
    pub(crate) fn len(&self) -> usize
        ensures { result ≡ length self.now }
    {
        self.frames.len() - self.front
    }

    /// The bytes of their texts.
    pub(crate) fn bytes(&self) -> usize
        ensures { result ≡ text_bytes self.now }
    {
        self.bytes
    }

    /// The frame comes last, or, for want of memory, is dropped.
    pub(crate) fn push(&mut self, stamp: u64, text: Vec<u8>) -> Result<(), NoMemory>
        requires { text_bytes self.old + length text.items < 2 ^ 64 }
        ensures pushed { OnOk result (self.new ≡ self.old ++ (stamp, text.items) ∷ []) }
        ensures unchanged { OnErr result (self.new ≡ self.old) }
    {
        let bytes = text.len();
        self.frames.push(Kept::new(stamp, text))?;
        self.bytes += bytes;
        Ok(())
    }

    /// Takes away the oldest frame, and answers its stamp.
    pub(crate) fn pop(&mut self) -> u64
        requires { 0 < length self.old }
        ensures { TakesOldest self.old result self.new }
    {
        let oldest = &mut self.frames[self.front];
        let stamp = oldest.stamp();
        self.bytes -= oldest.text().len();
        oldest.empty(self.alloc);
        self.front += 1;
        stamp
    }

    /// Moves the frames to the front where at least half of the places are of frames that are gone, so that
    /// each frame moves at most once for each that goes.
    pub(crate) fn close_up(&mut self)
        ensures { self.new ≡ self.old }
    {
        if self.front >= self.len() {
            self.frames.drain(..self.front);
            self.front = 0;
        }
    }

    /// The frames above the stamp, lent. Each frame's stamp is above the one before.
    pub(crate) fn after(&self, stamp: u64) -> &[Kept]
        requires { AreRising 0 self.now }
        ensures { result.now ≡ after_stamp stamp self.now }
    {
        let frames = &self.frames[self.front..];
        let first = frames.partition_point(|frame| frame.stamp() <= stamp);
        &frames[first..]
    }

    /// The newest frame, lent, where there is one.
    pub(crate) fn last(&self) -> Option<&Kept>
        ensures { option_copied result ≡ last_or None self.now }
    {
        self.frames[self.front..].last()
    }
}
