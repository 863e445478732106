ghost use Rattle.std.specs.Prelude.{◌≡◌, ◌<◌, ◌≤◌, ℕ, List, [], length, IfOk, IsTrue, OnErr, OnOk};
ghost use Rattle.gate_model.specs.Limits.{most_kept_text};
ghost use Rattle.gate_model.specs.text.Text.{texts};
ghost use Rattle.display_history.specs.Keeping.{AreRising, HasKept, after_stamp, covers};
ghost use Rattle.desk_core.specs.Frames.{AddsFrame, no_frames};

use display_history::laws::{kept_are_few, newest_is_kept, newest_is_last};
use display_history::{History, Kept};
use gate_model::limits::MOST_KEPT_TEXT;
use gate_model::{Instr, NoMemory};
use guac_instr::texts_of;
use std::alloc::Global;
use std::marker::Model;

// The bytes of text that most instructions have at most. Room for as many is taken at once.
const USUAL_TEXT: usize = 40;

/// The frames that are kept, the text of the newest one, and its stamp. Contracts see a `FramesState`.
#[derive(Drop)]
pub struct Frames {
    kept: History,
    // The text of the newest frame where it isn't kept: it may be more than is kept. Else there is none.
    beside: Vec<u8>,
    stamp: u64,
}

impl Model for Frames {
    ghost use Rattle.desk_core.specs.Frames.{FramesState, EndsAt, newest_text};

    ghost Value = { FramesState };

    ghost view = { λ f. record { kept = f.kept; newest = newest_text f.kept.kept f.beside.items; stamp = f.stamp } };

    ghost invariant = { λ f. EndsAt f.kept f.stamp };
}

impl Frames {
    /// The first frame alone, whose stamp is at least 1.
    pub fn first(alloc: Global, frame: &[Instr], stamp: u64) -> Result<Frames, NoMemory>
        requires { 1 ≤ stamp }
        ensures { IfOk result (λ f. AddsFrame no_frames f stamp frame.now) }
    {
        let mut frames = Frames {
            kept: History::new(alloc),
            beside: Vec::new(alloc),
            stamp: 0,
        };
        frames.append(alloc, frame, stamp)?;
        Ok(frames)
    }

    /// One frame more, whose stamp is above the newest.
    pub fn append(&mut self, alloc: Global, frame: &[Instr], stamp: u64) -> Result<(), NoMemory>
        requires { self.old.stamp < stamp }
        ensures added { OnOk result (AddsFrame self.old self.new stamp frame.now) }
        ensures unchanged { OnErr result (self.new ≡ self.old) }
    {
        let usual = frame.len().saturating_mul(USUAL_TEXT);
        let mut text = Vec::with_capacity(alloc, usual)?;
        texts_of(frame, &mut text)?;
        let beside = copy_beside(alloc, &text)?;
        newest_is_last();
        // So the newest frame is the last that is kept, or is beside them.
        newest_is_kept();
        self.kept.push(stamp, text)?;
        self.beside = beside;
        self.stamp = stamp;
        Ok(())
    }

    /// The newest stamp.
    pub fn stamp(&self) -> u64
        ensures { result ≡ self.now.stamp }
    {
        self.stamp
    }

    /// The text of the newest frame, kept or not.
    pub fn newest(&self) -> &[u8]
        ensures { result.now ≡ self.now.newest }
    {
        match self.kept.last() {
            Some(frame) => frame.text(),
            None => &self.beside,
        }
    }

    /// Whether every frame above the stamp is kept.
    pub fn covers(&self, stamp: u64) -> bool
        ensures { result ≡ covers self.now.kept stamp }
    {
        self.kept.covers(stamp)
    }

    /// The frames above the stamp, each of which is kept: at most 256.
    pub fn after(&self, stamp: u64) -> &[Kept]
        requires { IsTrue (covers self.now.kept stamp) }
        ensures frames { (all : List (ℕ × List ℕ)) → HasKept self.now.kept all → result.now ≡ after_stamp stamp all }
        ensures few { length result.now ≤ 256 }
        ensures rising { AreRising stamp result.now }
    {
        kept_are_few();
        self.kept.after(stamp)
    }
}

// The text where it isn't kept, since it is more than is kept; else nothing.
fn copy_beside(alloc: Global, text: &[u8]) -> Result<Vec<u8>, NoMemory>
    ensures copied { IfOk result (λ beside. most_kept_text < length text.now → beside.items ≡ text.now) }
    ensures kept { IfOk result (λ beside. length text.now ≤ most_kept_text → beside.items ≡ []) }
{
    if text.len() > MOST_KEPT_TEXT {
        return Ok(Vec::from_slice(alloc, text)?);
    }
    Ok(Vec::new(alloc))
}
