//! The keys that wait to be given.

ghost use Rattle.std.specs.Prelude.{◌≡◌, ℕ, List};

use crate::keys::{KEYS_ROOM, put_releases, type_some};
use gate_model::NoMemory;
use std::alloc::Global;
use std::marker::Model;

/// The text of the keys that wait to be given, in room that was taken before. Contracts see what isn't given.
#[derive(Drop)]
pub(crate) struct Waiting {
    text: Vec<u8>,
    given: usize,
}

impl Model for Waiting {
    ghost use Rattle.std.specs.Prelude.{ℕ, List, ◌≤◌, vec_len, vec_capacity, drop};

    ghost Value = { List ℕ };

    ghost view = { λ w. drop w.given w.text.items };

    ghost invariant = { λ w. (w.given ≤ vec_len w.text) × (4096 ≤ vec_capacity w.text) };
}

impl Waiting {
    ghost use Rattle.std.specs.Prelude.{◌≡◌, ◌≤◌, ◌++◌, [], length, drop, take, min, IfOk};
    ghost use Rattle.clip_stream.specs.Pasted.{has_some};
    ghost use Rattle.clip_stream.specs.Typed.{releases, strokes_of};

    /// None, with all the room.
    pub(crate) fn new(alloc: Global) -> Result<Waiting, NoMemory>
        ensures { IfOk result (λ waiting. waiting ≡ []) }
    {
        let text = Vec::with_capacity(alloc, KEYS_ROOM)?;
        Ok(Waiting { text, given: 0 })
    }

    /// Whether there are any.
    pub(crate) fn has_some(&self) -> bool
        ensures { result ≡ has_some self.now }
    {
        self.given < self.text.len()
    }

    /// Gives the first.
    pub(crate) fn give(&mut self, into: &mut [u8]) -> usize
        ensures count { result ≡ min (length self.old) (length into.old) }
        ensures given { take result into.new ≡ take result self.old }
        ensures left { self.new ≡ drop result self.old }
    {
        let text = &self.text[self.given..];
        let count = text.len().min(into.len());
        into[..count].copy_from_slice(&text[..count]);
        self.given += count;
        count
    }

    /// The modifiers are released first.
    pub(crate) fn begin(&mut self)
        ensures { self.new ≡ releases }
    {
        self.given = 0;
        self.text.clear();
        put_releases(&mut self.text);
    }

    /// Types some of the bytes from `at` on, behind a carriage return or not, and answers up to where and whether a
    /// carriage return stands before it. Some text waits then, or all are typed.
    pub(crate) fn refill(&mut self, bytes: &[u8], at: usize, returned: bool) -> (usize, bool)
        requires within { at ≤ length bytes.now }
        ensures typed { self.new ++ strokes_of result.1 (drop result.0 bytes.now) ≡ strokes_of returned (drop at bytes.now) }
        ensures within { result.0 ≤ length bytes.now }
        ensures some { self.new ≡ [] → length bytes.now ≤ result.0 }
    {
        self.given = 0;
        self.text.clear();
        type_some(bytes, at, returned, &mut self.text)
    }
}
