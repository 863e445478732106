ghost use Rattle.std.specs.Prelude.{◌≡◌, ◌↔◌, ℕ, ◌<◌, List, ◌∷◌, ◌++◌, [], None, option_copied, IsTrue, OnErr, OnOk};
ghost use Rattle.std.specs.List.{last_or};
ghost use Rattle.display_history.specs.Keeping.{HasKept, IsHistory, after_stamp, covers, newest, nothing};

use crate::kept::Kept;
use crate::queue::Queue;
use gate_model::NoMemory;
use gate_model::limits::{MOST_KEPT_FRAMES, MOST_KEPT_TEXT};
use std::alloc::Global;
use std::marker::Model;

/// The kept frames of one session. Contracts see it as a `HistoryState`, and `HasKept` says for which
/// frames, all that were ever pushed, it stands (this project's own rule).
#[derive(Drop)]
pub struct History {
    frames: Queue,
    // The stamp of the last frame that is gone, 0 where none is.
    gone: u64,
}

impl Model for History {
    ghost use Rattle.display_history.specs.Keeping.{HistoryState, IsHistory};

    ghost Value = { HistoryState };

    ghost view = { λ h. record { kept = h.frames; gone = h.gone } };

    ghost invariant = { λ h. IsHistory (record { kept = h.frames; gone = h.gone }) };
}

impl History {
    /// No frame was pushed.
    pub fn new(alloc: Global) -> History
        ensures nothing { result ≡ nothing }
        ensures stands { HasKept result [] }
    {
        History {
            frames: Queue::new(alloc),
            gone: 0,
        }
    }

    /// The frame of that stamp comes after all that were pushed, and the oldest go, as few as the limits
    /// ask for; a text of more than 8,388,608 bytes goes with all before it. The stamp is at least 1, and
    /// above that of every earlier push that answered `Ok`.
    ///
    /// # Errors
    ///
    /// For want of memory alone. Then the text is dropped, and nothing changes (this project's own rule).
    pub fn push(&mut self, stamp: u64, text: Vec<u8>) -> Result<(), NoMemory>
        requires { newest self.old < stamp }
        ensures pushed { OnOk result ((all : List (ℕ × List ℕ)) → HasKept self.old all → HasKept self.new (all ++ (stamp, text.items) ∷ [])) }
        ensures unchanged { OnErr result (self.new ≡ self.old) }
    {
        self.frames.push(stamp, text)?;
        while self.frames.len() > MOST_KEPT_FRAMES || self.frames.bytes() > MOST_KEPT_TEXT {
            self.gone = self.frames.pop();
        }
        self.frames.close_up();
        Ok(())
    }

    /// Whether every frame above the stamp is kept, of all that were pushed. Any number may be asked for
    /// (this project's own rule).
    pub fn covers(&self, stamp: u64) -> bool
        ensures told { result ≡ covers self.now stamp }
        ensures exact { (all : List (ℕ × List ℕ)) → HasKept self.now all → IsTrue result ↔ (after_stamp stamp all ≡ after_stamp stamp self.now.kept) }
        ensures history { IsHistory self.now }
    {
        self.gone <= stamp
    }

    /// The frames above the stamp, of all that were pushed, oldest first and lent in one piece. Each of
    /// them is kept, as `covers` tells (this project's own rule).
    pub fn after(&self, stamp: u64) -> &[Kept]
        requires { IsTrue (covers self.now stamp) }
        ensures kept { result.now ≡ after_stamp stamp self.now.kept }
        ensures all { (all : List (ℕ × List ℕ)) → HasKept self.now all → result.now ≡ after_stamp stamp all }
    {
        self.frames.after(stamp)
    }

    /// The newest of the kept frames, lent. It is the newest that was pushed, but for one whose text has more
    /// than 8,388,608 bytes: then none is kept (this project's own rule).
    pub fn last(&self) -> Option<&Kept>
        ensures { option_copied result ≡ last_or None self.now.kept }
    {
        self.frames.last()
    }
}
