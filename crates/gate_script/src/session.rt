//! A session: its desk, what its viewers see, and what each of its calls tells.

ghost use Rattle.std.specs.Prelude.{◌≡◌, ◌≢◌, ◌≤◌, [], ◌∷◌, ℕ, List, Option, length, IfOk, OnOk};
ghost use Rattle.gate_model.specs.Limits.{most_entries};
ghost use Rattle.gate_model.specs.session.Steps.{IsScreenSize};
ghost use Rattle.gate_script.specs.Plays.{setup_of};

use crate::halt::Halt;
use crate::reply::{Numbers, Reply};
use crate::seeing::{agree_with_first, are_same, dot_of, pixel_sum};
use crate::sight::Sight;
use canvas::{Canvas, play_text, played};
use desk_core::{
    Desk, FeedRefusal, JoinRefusal, NoMemory, ReadRefusal, ResizeRefusal, Setup, WriteRefusal,
    Written,
};
use gate_model::{Act, Asked, Cause, Faces, Share, Text, statuses};
use script_grammar::{Line, Reading, Size, Totals, read_acts};
use std::alloc::Global;

/// A desk, and what a viewer is given. Where what viewers see is played, there is a place for each viewer that
/// joined, with the canvas of one that is there.
#[derive(Drop)]
pub(crate) struct Session {
    pub desk: Desk,
    pub canvases: Vec<Option<Canvas>>,
    given: Vec<u8>,
}

impl Session {
    ghost use Rattle.gate_model.specs.session.Calls.{IsWrite};
    ghost use Rattle.gate_model.specs.session.History.{History};
    ghost use Rattle.script_grammar.specs.declared.line.Line.TheVariants.{Acknowledge, Close, Done, Join, Leave, Pixel, Press, Read, Resize, Same, Server, Start, Take, Totals as TellTotals, Write};
    ghost use Rattle.script_grammar.specs.Lines.{IsInRange};
    ghost use Rattle.gate_script.specs.declared.sight.Sight.{Sight as Sights};
    ghost use Rattle.gate_script.specs.declared.sight.Sight.TheVariants.{Played};
    ghost use Rattle.gate_script.specs.Calls.{CallEnds, IsAt, IsCall, IsOpenDesk, LeavesOpen, MaySee, StartEnds, StaysOpen, WriteEnds, play};
    ghost use Rattle.gate_script.specs.Seeing.{AddsCanvas, PlaysOn, TakesAway};

    /// Opens a session at the moment `now`, of at most `entries` entries, and tells that it has started.
    pub(crate) fn start(
        alloc: Global,
        size: Size,
        mode: Share,
        entries: u64,
        now: u64,
        reply: &mut Reply,
    ) -> Result<Session, Halt>
        requires size { IsScreenSize size.cols size.rows }
        requires some { 1 ≤ entries }
        requires few { entries ≤ most_entries }
        ensures step { (sight : Sights) → StartEnds sight (Start size mode entries) (play now []) result reply.old reply.new }
        ensures open { IfOk result (λ s. IsOpenDesk s.desk) }
    {
        let setup = setup_of(alloc, size, mode, entries)?;
        let desk = Desk::start(alloc, setup, now)?;
        reply.report(0, desk.newest_frame(), "started", &[desk.stamp()])?;
        Ok(Session {
            desk,
            canvases: Vec::new(alloc),
            given: Vec::new(alloc),
        })
    }

    /// Does a line that isn't one of a run alone, at the moment `now`. One that asks what viewers see needs it played.
    pub(crate) fn call(
        &mut self,
        alloc: Global,
        line: Line,
        now: u64,
        sight: Sight,
        reply: &mut Reply,
    ) -> Result<(), Halt>
        requires call { IsCall line }
        requires range { IsInRange line }
        requires sees { MaySee sight line }
        ensures step { (h : History) → IsAt sight self.old h → CallEnds sight line (play now h) result self.new reply.old reply.new }
        ensures open { OnOk result (LeavesOpen line self.old.desk self.new.desk) }
    {
        match line {
            Line::Server(bytes) => self.server(alloc, bytes.as_slice(), now, reply),
            Line::Join(asked) => self.join(alloc, asked, sight, reply),
            Line::Read(viewer) => self.read(viewer, reply),
            Line::Write(viewer, text) => self.write(alloc, viewer, text.as_slice(), reply),
            Line::Resize(viewer, size) => self.resize(alloc, viewer, size, reply),
            Line::Take(most) => self.take(alloc, most, reply),
            Line::Leave(viewer) => self.leave(viewer, reply),
            Line::Close => self.close(reply),
            Line::Pixel(viewer, x, y) => self.pixel(viewer, x, y, reply),
            Line::Same(one, other) => self.same(one, other, reply),
            Line::Acknowledge(viewer) => self.acknowledge(alloc, viewer, reply),
            Line::Done => self.done(reply),
            Line::Press(viewer, keysym) => self.press(alloc, viewer, keysym, reply),
            Line::Totals(totals) => self.totals(totals, reply),
            Line::Blank | Line::Bad | Line::At(_) | Line::Start(_, _, _) => unreachable!(),
        }
    }

    // The host sends 1 to 65,536 bytes at the moment `now`.
    fn server(
        &mut self,
        alloc: Global,
        bytes: &[u8],
        now: u64,
        reply: &mut Reply,
    ) -> Result<(), Halt>
        requires some { 1 ≤ length bytes.now }
        requires few { length bytes.now ≤ 65536 }
        ensures step { (sight : Sights) (h : History) → IsAt sight self.old h → CallEnds sight (Server bytes.now) (play now h) result self.new reply.old reply.new }
        ensures open { OnOk result (StaysOpen 1 self.old.desk self.new.desk) }
    {
        match self.desk.feed(alloc, bytes, now) {
            Ok(stamp) => reply.report(0, self.desk.newest_frame(), "synced", &[stamp]),
            Err(FeedRefusal::Closed(_)) => reply.refuse(statuses::SESSION_CLOSED),
            Err(FeedRefusal::Worn { entries }) => Err(Halt::Worn(entries)),
            Err(FeedRefusal::NoMemory) => Err(Halt::NoMemory),
        }
    }

    // A viewer joins, and asks for this.
    fn join(
        &mut self,
        alloc: Global,
        asked: Asked,
        sight: Sight,
        reply: &mut Reply,
    ) -> Result<(), Halt>
        ensures step { (h : History) (now : ℕ) → IsAt sight self.old h → CallEnds sight (Join asked) (play now h) result self.new reply.old reply.new }
        ensures open { OnOk result (StaysOpen 0 self.old.desk self.new.desk) }
    {
        self.given.clear();
        match self.desk.join(asked, &mut self.given) {
            Ok(joined) => {
                self.add_canvas(alloc, sight)?;
                let numbers = [u64::from(joined.viewer), joined.stamp];
                reply.report(joined.viewer, &self.given, "joined", &numbers)
            }
            Err(JoinRefusal::Closed(_)) => reply.refuse(statuses::SESSION_CLOSED),
            Err(JoinRefusal::Forbidden) => reply.refuse(statuses::FORBIDDEN),
            Err(JoinRefusal::TooMany { .. }) => reply.refuse(statuses::TOO_MANY),
            Err(JoinRefusal::Worn { entries }) => Err(Halt::Worn(entries)),
            Err(JoinRefusal::NoMemory) => Err(Halt::NoMemory),
        }
    }

    // Adds the canvas of a viewer who has joined, where what viewers see is played.
    fn add_canvas(&mut self, alloc: Global, sight: Sight) -> Result<(), NoMemory>
        ensures adds { sight ≡ Played → OnOk result (AddsCanvas self.old.canvases.items self.new.canvases.items self.old.given.items) }
        ensures desk { self.new.desk ≡ self.old.desk }
        ensures given { self.new.given ≡ self.old.given }
    {
        match sight {
            Sight::Played => {
                let canvas = played(alloc, &self.given)?;
                if self.canvases.push(Some(canvas)).is_err() {
                    return Err(NoMemory);
                }
                Ok(())
            }
            Sight::Unplayed => Ok(()),
        }
    }

    // The viewer reads.
    fn read(&mut self, viewer: u32, reply: &mut Reply) -> Result<(), Halt>
        ensures step { (sight : Sights) (h : History) (now : ℕ) → IsAt sight self.old h → CallEnds sight (Read viewer) (play now h) result self.new reply.old reply.new }
        ensures open { OnOk result (StaysOpen 0 self.old.desk self.new.desk) }
    {
        self.given.clear();
        match self.desk.read(viewer, &mut self.given) {
            Ok(answer) => {
                self.play_given(viewer)?;
                reply.say_read(viewer, &self.given, answer)
            }
            Err(ReadRefusal::NoViewer) => reply.refuse(statuses::NOT_FOUND),
            Err(ReadRefusal::Worn { entries }) => Err(Halt::Worn(entries)),
            Err(ReadRefusal::NoMemory) => Err(Halt::NoMemory),
        }
    }

    // Plays what the viewer was given on its canvas, if it has one.
    fn play_given(&mut self, viewer: u32) -> Result<(), NoMemory>
        ensures plays { OnOk result (PlaysOn self.old.canvases.items self.new.canvases.items viewer self.old.given.items) }
        ensures desk { self.new.desk ≡ self.old.desk }
        ensures given { self.new.given ≡ self.old.given }
    {
        let place = viewer as usize;
        if 1 <= place && place <= self.canvases.len() {
            if let Some(canvas) = &mut self.canvases[place - 1] {
                play_text(canvas, &self.given)?;
            }
        }
        Ok(())
    }

    // Takes the acts of a viewer's text, which is read as instructions.
    fn write(
        &mut self,
        alloc: Global,
        viewer: u32,
        text: &[u8],
        reply: &mut Reply,
    ) -> Result<(), Halt>
        ensures { (sight : Sights) (h : History) (now : ℕ) → IsAt sight self.old h → CallEnds sight (Write viewer text.now) (play now h) result self.new reply.old reply.new }
    {
        match read_acts(alloc, text)? {
            Reading::Whole { acts, passed } => {
                self.write_acts(alloc, viewer, acts.as_slice(), passed, reply)
            }
            Reading::Cut(place) => reply.say("cut", &[place as u64]),
            Reading::Bad(at) => reply.say_bad(at),
            Reading::TooMany => Err(Halt::OutsideGrammar),
        }
    }

    // Takes the acts of a viewer, and tells their number and that of the instructions without one.
    fn write_acts(
        &mut self,
        alloc: Global,
        viewer: u32,
        acts: &[Act],
        passed: u32,
        reply: &mut Reply,
    ) -> Result<(), Halt>
        requires { IsWrite acts.now }
        ensures step { (sight : Sights) (h : History) (now : ℕ) → IsAt sight self.old h → WriteEnds sight viewer acts.now passed (play now h) result self.new reply.old reply.new }
        ensures open { OnOk result (StaysOpen 0 self.old.desk self.new.desk) }
    {
        match self.desk.write(alloc, viewer, acts) {
            Ok(Written { keys, denied }) => {
                let numbers = [u64::from(keys), u64::from(denied), u64::from(passed)];
                reply.say("written", &numbers)
            }
            Err(WriteRefusal::NoViewer) => reply.refuse(statuses::NOT_FOUND),
            Err(WriteRefusal::Closed(_)) => reply.refuse(statuses::SESSION_CLOSED),
            Err(WriteRefusal::Worn { entries }) => Err(Halt::Worn(entries)),
            Err(WriteRefusal::NoMemory) => Err(Halt::NoMemory),
        }
    }

    // The viewer acknowledges the newest stamp.
    fn acknowledge(&mut self, alloc: Global, viewer: u32, reply: &mut Reply) -> Result<(), Halt>
        ensures step { (sight : Sights) (h : History) (now : ℕ) → IsAt sight self.old h → CallEnds sight (Acknowledge viewer) (play now h) result self.new reply.old reply.new }
        ensures open { OnOk result (StaysOpen 0 self.old.desk self.new.desk) }
    {
        let acts = [Act::Sync {
            stamp: self.desk.stamp(),
        }];
        self.write_acts(alloc, viewer, &acts, 0, reply)
    }

    // The viewer presses a key.
    fn press(
        &mut self,
        alloc: Global,
        viewer: u32,
        keysym: u32,
        reply: &mut Reply,
    ) -> Result<(), Halt>
        ensures { (sight : Sights) (h : History) (now : ℕ) → IsAt sight self.old h → CallEnds sight (Press viewer keysym) (play now h) result self.new reply.old reply.new }
    {
        let acts = [Act::Key {
            keysym,
            pressed: true,
        }];
        self.write_acts(alloc, viewer, &acts, 0, reply)
    }

    // The viewer gives the screen this size.
    fn resize(
        &mut self,
        alloc: Global,
        viewer: u32,
        size: Size,
        reply: &mut Reply,
    ) -> Result<(), Halt>
        requires { IsScreenSize size.cols size.rows }
        ensures { (sight : Sights) (h : History) (now : ℕ) → IsAt sight self.old h → CallEnds sight (Resize viewer size) (play now h) result self.new reply.old reply.new }
    {
        match self.desk.resize(alloc, viewer, size.cols, size.rows) {
            Ok(stamp) => reply.report(0, self.desk.newest_frame(), "sized", &[stamp]),
            Err(ResizeRefusal::NoViewer) => reply.refuse(statuses::NOT_FOUND),
            Err(ResizeRefusal::Closed(_)) => reply.refuse(statuses::SESSION_CLOSED),
            Err(ResizeRefusal::Denied) => reply.say("denied", &[]),
            Err(ResizeRefusal::Same) => reply.say("unchanged", &[]),
            Err(ResizeRefusal::Worn { entries }) => Err(Halt::Worn(entries)),
            Err(ResizeRefusal::NoMemory) => Err(Halt::NoMemory),
        }
    }

    // Takes the next bytes that wait for the host, at most so many, and tells them.
    fn take(&mut self, alloc: Global, most: u32, reply: &mut Reply) -> Result<(), Halt>
        ensures { (sight : Sights) (h : History) (now : ℕ) → IsAt sight self.old h → CallEnds sight (Take most) (play now h) result self.new reply.old reply.new }
    {
        // Bytes enough wait to fill the buffer.
        let count = self.desk.pending().min(u64::from(most));
        let mut bytes = vec![in alloc; 0u8; count as usize]?;
        self.desk.take(&mut bytes);
        reply.say_took(&bytes)
    }

    // The viewer leaves, and its canvas goes.
    fn leave(&mut self, viewer: u32, reply: &mut Reply) -> Result<(), Halt>
        ensures { (sight : Sights) (h : History) (now : ℕ) → IsAt sight self.old h → CallEnds sight (Leave viewer) (play now h) result self.new reply.old reply.new }
    {
        match self.desk.leave(viewer) {
            Ok(()) => {
                self.drop_canvas(viewer);
                reply.say("left", &[u64::from(viewer)])
            }
            Err(_) => reply.refuse(statuses::NOT_FOUND),
        }
    }

    // Drops the canvas of a viewer that has left.
    fn drop_canvas(&mut self, viewer: u32)
        ensures gone { TakesAway self.old.canvases.items self.new.canvases.items viewer }
        ensures desk { self.new.desk ≡ self.old.desk }
    {
        let place = viewer as usize;
        if 1 <= place && place <= self.canvases.len() {
            self.canvases[place - 1] = None;
        }
    }

    // The session is stopped: it is closed, and its viewers may still read what they lack.
    fn close(&mut self, reply: &mut Reply) -> Result<(), Halt>
        ensures { (sight : Sights) (h : History) (now : ℕ) → IsAt sight self.old h → CallEnds sight Close (play now h) result self.new reply.old reply.new }
    {
        match self.desk.close(Cause::Stopped) {
            Ok(()) => reply.say("closed", &[]),
            Err(_) => reply.refuse(statuses::SESSION_CLOSED),
        }
    }

    // Tells the pixel at `x` and `y` of what the viewer sees.
    fn pixel(&mut self, viewer: u32, x: u64, y: u64, reply: &mut Reply) -> Result<(), Halt>
        ensures { (h : History) (now : ℕ) → IsAt Played self.old h → CallEnds Played (Pixel viewer x y) (play now h) result self.new reply.old reply.new }
    {
        match dot_of(&self.canvases, viewer, x, y) {
            Some(dot) => reply.say_dot(dot),
            None => reply.refuse(statuses::NOT_FOUND),
        }
    }

    // Tells whether two viewers see the same in every layer.
    fn same(&mut self, one: u32, other: u32, reply: &mut Reply) -> Result<(), Halt>
        ensures { (h : History) (now : ℕ) → IsAt Played self.old h → CallEnds Played (Same one other) (play now h) result self.new reply.old reply.new }
    {
        match are_same(&self.canvases, one, other) {
            Some(true) => reply.say("same", &[]),
            Some(false) => reply.say("differ", &[]),
            None => reply.refuse(statuses::NOT_FOUND),
        }
    }

    // Tells the newest stamp.
    fn done(&mut self, reply: &mut Reply) -> Result<(), Halt>
        ensures { (sight : Sights) (h : History) (now : ℕ) → IsAt sight self.old h → CallEnds sight Done (play now h) result self.new reply.old reply.new }
    {
        reply.say("done", &[self.desk.stamp()])
    }

    // Tells these totals, and what the session and its viewers have come to.
    fn totals(&mut self, totals: Totals, reply: &mut Reply) -> Result<(), Halt>
        ensures { (h : History) (now : ℕ) → IsAt Played self.old h → CallEnds Played (TellTotals totals) (play now h) result self.new reply.old reply.new }
    {
        let numbers = Numbers {
            totals,
            joins: self.canvases.len() as u64,
            stamp: self.desk.stamp(),
            sum: pixel_sum(&self.canvases)?,
        };
        reply.say_totals(numbers, agree_with_first(&self.canvases))
    }
}

// What a session is opened with.
fn setup_of(alloc: Global, size: Size, mode: Share, entries: u64) -> Result<Setup, NoMemory>
    ensures { IfOk result (λ setup. setup ≡ setup_of size mode entries) }
{
    let term = Text::of(String::from_str(alloc, "linux")?);
    Ok(Setup {
        cols: size.cols,
        rows: size.rows,
        mode,
        term,
        faces: Faces::Ascii,
        entries,
    })
}
