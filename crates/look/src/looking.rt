//! The look at a stream: its instructions are read and played up to the sync that is asked for.

ghost use Rattle.std.specs.Prelude.{◌≡◌, ◌++◌, ◌∷◌, ◌+◌, ◌^◌, ◌<◌, ◌≤◌, true, false, ℕ, List, Some, IfOk, IfSome, OnOk};
ghost use Rattle.gate_model.specs.picture.Layers.{Layers, draw};
ghost use Rattle.gate_model.specs.text.ServerMeaning.{instr_of};
ghost use Rattle.gate_model.specs.declared.instr.Instr.{Instr};
ghost use Rattle.canvas.specs.Standing.{ArePlayable, IsPlayable, Stands};
ghost use Rattle.look.specs.Seen.{IsMarked};
ghost use Rattle.look.specs.Shown.{IsLooked, IsShown};
ghost use Rattle.look.specs.Stream.{GoesOn, is_asked};
ghost use Rattle.record_play.specs.Stamps.{stamp_of};

use crate::looked::{End, Looked, Marks};
use crate::until::Until;
use canvas::Canvas;
use gate_model::{Instr, NoMemory};
use guac_framing::{Frame, Next, next_instruction};
use guac_instr::read_server;
use record_play::stamp_of;
use std::alloc::Global;

// The canvas up to the sync that is marked, and the instructions that were read since then.
#[derive(Drop)]
struct View {
    canvas: Canvas,
    waiting: Vec<Instr>,
    marks: Marks,
}

/// Looks at a stream of instructions: the canvas shows what those up to the sync that is asked for draw
/// from nothing, and the marks say where that sync stands. Reading ends at the stream's end, or where no
/// whole instruction stands (the Guacamole manual, "The Guacamole protocol"); instructions that the gateway
/// doesn't send are passed over. The only error is want of memory.
pub fn look_at(alloc: Global, text: &[u8], until: Until) -> Result<Looked, NoMemory>
    ensures { IfOk result (IsLooked text.now until) }
{
    let mut view = View {
        canvas: Canvas::new(alloc),
        waiting: Vec::new(alloc),
        marks: Marks {
            place: 0,
            frame: 0,
            stamp: 0,
            syncs: 0,
        },
    };
    let mut at = 0;
    while at < text.len() {
        match next_instruction(&text[at..]) {
            Next::Whole(frame, size) => {
                at += size;
                view.read(until, &frame, at)?;
            }
            Next::More => return Ok(view.ended(at, End::Cut)),
            Next::Bad(bad) => return Ok(view.ended(at, End::Bad(bad))),
        }
    }
    Ok(view.ended(at, End::Whole))
}

impl View {
    // What was found, where the reading ended so.
    fn ended(self, read: usize, end: End) -> Looked
        ensures { result ≡ record { canvas = self.canvas; marks = self.marks; read = read; end = end } }
    {
        Looked {
            canvas: self.canvas,
            marks: self.marks,
            read,
            end,
        }
    }

    // Takes the instruction of these elements, which ends at a place, if the gateway sends it.
    fn read(&mut self, until: Until, frame: &Frame<'_>, place: usize) -> Result<(), NoMemory>
        requires playable { ArePlayable self.old.waiting.items }
        requires room { self.old.marks.syncs < place }
        ensures playable { OnOk result (ArePlayable self.new.waiting.items) }
        ensures room { OnOk result (self.new.marks.syncs ≤ place) }
        ensures shown { (text : List ℕ) (before : ℕ) → IsShown text until self.old.marks before self.old.canvas self.old.waiting.items → GoesOn text before (instr_of frame.now) place
            → OnOk result (IsShown text until self.new.marks place self.new.canvas self.new.waiting.items) }
    {
        match read_server(frame) {
            Some(instr) => self.take(until, instr, place),
            None => Ok(()),
        }
    }

    // Takes an instruction that ends at a place.
    fn take(&mut self, until: Until, instr: Instr, place: usize) -> Result<(), NoMemory>
        requires waiting { ArePlayable self.old.waiting.items }
        requires playable { IsPlayable instr }
        requires room { self.old.marks.syncs < place }
        ensures playable { OnOk result (ArePlayable self.new.waiting.items) }
        ensures room { OnOk result (self.new.marks.syncs ≤ place) }
        ensures shown { (text : List ℕ) (before : ℕ) → IsShown text until self.old.marks before self.old.canvas self.old.waiting.items → GoesOn text before (Some instr) place
            → OnOk result (IsShown text until self.new.marks place self.new.canvas self.new.waiting.items) }
    {
        self.waiting.push(instr)?;
        match stamp_of(instr) {
            Some(stamp) => self.count(until, stamp, place),
            None => Ok(()),
        }
    }

    // Counts the sync that waits last, and shows the picture up to it where it is asked for.
    fn count(&mut self, until: Until, stamp: u64, place: usize) -> Result<(), NoMemory>
        requires playable { ArePlayable self.old.waiting.items }
        requires room { self.old.marks.syncs < place }
        ensures playable { OnOk result (ArePlayable self.new.waiting.items) }
        ensures room { OnOk result (self.new.marks.syncs ≤ place) }
        ensures shown { is_asked until (self.old.marks.syncs + 1) stamp ≡ true → OnOk result (IsMarked self.old stamp place self.new) }
        ensures others { is_asked until (self.old.marks.syncs + 1) stamp ≡ false → OnOk result (self.new ≡ record self.old { marks = record self.old.marks { syncs = self.old.marks.syncs + 1 } }) }
    {
        self.marks.syncs += 1;
        if !is_asked(until, self.marks.syncs, stamp) {
            return Ok(());
        }
        play_all(&mut self.canvas, &self.waiting)?;
        self.waiting.clear();
        self.marks.place = place;
        self.marks.frame = self.marks.syncs;
        self.marks.stamp = stamp;
        Ok(())
    }
}

// Whether the sync of this number and stamp is among those up to the one that is asked for.
fn is_asked(until: Until, number: usize, stamp: u64) -> bool
    ensures { result ≡ is_asked until number stamp }
{
    match until {
        Until::Last => true,
        Until::Frame(most) => number as u64 <= most,
        Until::Stamp(most) => stamp <= most,
    }
}

// Plays the instructions, one after the other.
fn play_all(canvas: &mut Canvas, instrs: &[Instr]) -> Result<(), NoMemory>
    requires { ArePlayable instrs.now }
    ensures { (m : Layers) → Stands canvas.old m → OnOk result (Stands canvas.new (draw m instrs.now)) }
{
    for instr in instrs {
        canvas.play(instr)?;
    }
    Ok(())
}
