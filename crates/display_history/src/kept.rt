ghost use Rattle.std.specs.Prelude.{◌≡◌, []};

use std::alloc::Global;
use std::marker::Model;

/// A kept frame, which contracts see as the pair of its stamp and the bytes of its text (this project's
/// own).
#[derive(Drop)]
pub struct Kept {
    stamp: u64,
    text: Vec<u8>,
}

impl Model for Kept {
    ghost use Rattle.std.specs.Prelude.{ℕ, List};

    ghost Value = { ℕ × List ℕ };

    ghost view = { λ k. (k.stamp, k.text.items) };
}

impl Kept {
    // A frame of that stamp and text.
    pub(crate) fn new(stamp: u64, text: Vec<u8>) -> Kept
        ensures { result ≡ (stamp, text.items) }
    {
        Kept { stamp, text }
    }

    /// The stamp of the frame.
    pub fn stamp(&self) -> u64
        ensures { result ≡ self.now.0 }
    {
        self.stamp
    }

    /// The bytes of the frame's text, lent.
    pub fn text(&self) -> &[u8]
        ensures { result.now ≡ self.now.1 }
    {
        &self.text
    }

    // Gives back the memory of the text.
    pub(crate) fn empty(&mut self, alloc: Global)
        ensures { self.new ≡ (self.old.0, []) }
    {
        self.text = Vec::new(alloc);
    }
}
