//! A run of either form: what it does with each piece of its input, and where it writes what is told.

ghost use Rattle.std.specs.Prelude.{◌≡◌, ◌≢◌, ◌+◌, ◌*◌, ◌<◌, ◌^◌, ◌≤◌, ◌||◌, [], ◌∷◌, ℕ, List, length, false, OnOk};
ghost use Rattle.std.specs.Option.{is_some};
ghost use Rattle.gate_script.specs.Running.{stop_of};

use crate::halt::Halt;
use crate::refused::Refused;
use crate::sight::Sight;
use crate::state::State;
use crate::stop::Stop;
use desk_core::laws::{desks_are_true, desks_are_whole};
use gate_model::{Asked, Bytes, Share};
use gate_outside::{Sink, write_all};
use script_grammar::{Line, Order, Size, TextForm, judged};
use std::alloc::Global;

/// The most entries of a session.
const MOST_ENTRIES: u64 = 1 << 40;

/// The form, where the run stands, how many orders were done, and how many bytes their pieces have.
#[derive(Drop)]
pub(crate) struct Run {
    pub form: TextForm,
    pub state: State,
    pub lines: u64,
    pub read: u64,
}

impl Run {
    ghost use Rattle.script_grammar.specs.declared.text_form.TextForm.TheVariants.{Draw, Script};
    ghost use Rattle.script_grammar.specs.declared.line.Line.TheVariants.{Acknowledge, Bad, Read, Server};
    ghost use Rattle.script_grammar.specs.declared.order.Order.{Order as Orders};
    ghost use Rattle.script_grammar.specs.declared.order.Order.TheVariants.{Told, Untold};
    ghost use Rattle.script_grammar.specs.Grammar.{ending, in_place, judged, lines_of, most_of, most_script, starts};
    ghost use Rattle.script_grammar.specs.Lines.{IsInRange, line_in};
    ghost use Rattle.script_grammar.specs.Words.{IsTextForm};
    ghost use Rattle.gate_script.specs.declared.sight.Sight.TheVariants.{Played, Unplayed};
    ghost use Rattle.gate_script.specs.Calls.{MaySee};
    ghost use Rattle.gate_script.specs.Sinks.{Sinks, Wrote, held};
    ghost use Rattle.gate_script.specs.Running.{At, Ends, Goes, HasDone, IsOpen, IsReady, KeepsOpen, LastEnds, LeavesOpen, PieceEnds};

    /// A run that has done nothing.
    pub(crate) fn new(alloc: Global, form: TextForm) -> Run
        ensures form { result.form ≡ form }
        ensures moment { result.state.moment ≡ 0 }
        ensures session { is_some result.state.session ≡ false }
        ensures lines { result.lines ≡ 0 }
        ensures read { result.read ≡ 0 }
    {
        Run {
            form,
            state: State::new(alloc),
            lines: 0,
            read: 0,
        }
    }

    /// Does an order, and writes what it tells: the line of the frames, and then the answer.
    pub(crate) fn order<A: Sink, F: Sink>(
        &mut self,
        alloc: Global,
        order: Order,
        sight: Sight,
        answers: &mut A,
        frames: &mut F,
    ) -> Result<(), Stop>
        requires few { self.old.lines < 2 ^ 62 }
        requires placed { in_place (is_some self.old.state.session) (line_in order) ≡ line_in order }
        requires range { IsInRange (line_in order) }
        requires sees { MaySee sight (line_in order) }
        ensures step { (orders : List Orders) (began : Sinks) → At sight orders self.old began (held (A.written answers.old) (A.faults answers.old) (F.written frames.old) (F.faults frames.old)) →
            Ends sight (order ∷ orders) result self.new began (held (A.written answers.new) (A.faults answers.new) (F.written frames.new) (F.faults frames.new)) }
        ensures goes_on { (orders : List Orders) (began : Sinks) → (at : At sight orders self.old began (held (A.written answers.old) (A.faults answers.old) (F.written frames.old) (F.faults frames.old))) →
            OnOk result (Goes sight order orders at.play self.new began (held (A.written answers.new) (A.faults answers.new) (F.written frames.new) (F.faults frames.new))) }
        ensures opened { OnOk result (is_some self.new.state.session ≡ (starts order || is_some self.old.state.session)) }
        ensures open { OnOk result (LeavesOpen (line_in order) self.old.state.session self.new.state.session) }
        ensures sound { OnOk result (line_in order ≢ Bad) }
        ensures lines { OnOk result (self.new.lines ≡ self.old.lines + 1) }
        ensures form { self.new.form ≡ self.old.form }
        ensures read { self.new.read ≡ self.old.read }
    {
        // The laws that make the history legal, true and whole.
        desks_are_true();
        desks_are_whole();
        let number = self.lines + 1;
        match self.state.order(alloc, order, sight) {
            Ok(()) => {
                self.lines = number;
                self.tell(answers, frames)
            }
            Err(halt) => Err(stop_of(halt, number)),
        }
    }

    // Writes what the newest order tells.
    fn tell<A: Sink, F: Sink>(&self, answers: &mut A, frames: &mut F) -> Result<(), Stop>
        ensures { Wrote result (held (A.written answers.old) (A.faults answers.old) (F.written frames.old) (F.faults frames.old)) (held (A.written answers.new) (A.faults answers.new) (F.written frames.new) (F.faults frames.new)) self.now.state.reply.answer.items self.now.state.reply.frame.items }
    {
        match write_all(frames, &self.state.reply.frame) {
            Ok(()) => match write_all(answers, &self.state.reply.answer) {
                Ok(()) => Ok(()),
                Err(_) => Err(Stop::WriteFault),
            },
            Err(_) => Err(Stop::WriteFault),
        }
    }

    /// Does what comes before the first piece: `draw` starts the session, and its owner joins.
    pub(crate) fn open<A: Sink, F: Sink>(
        &mut self,
        alloc: Global,
        answers: &mut A,
        frames: &mut F,
    ) -> Result<(), Stop>
        requires form { IsTextForm self.old.form }
        requires moment { self.old.state.moment ≡ 0 }
        requires session { is_some self.old.state.session ≡ false }
        requires lines { self.old.lines ≡ 0 }
        requires read { self.old.read ≡ 0 }
        ensures step { PieceEnds self.old.form [] result self.new (held (A.written answers.old) (A.faults answers.old) (F.written frames.old) (F.faults frames.old)) (held (A.written answers.new) (A.faults answers.new) (F.written frames.new) (F.faults frames.new)) }
        ensures ready { OnOk result (IsReady self.new) }
        ensures form { self.new.form ≡ self.old.form }
        ensures read { self.new.read ≡ self.old.read }
    {
        match self.form {
            TextForm::Draw(size) => {
                let start = Line::Start(size, Share::Nobody, MOST_ENTRIES);
                self.order(alloc, Order::Told(start), Sight::Unplayed, answers, frames)?;
                let join = Line::Join(Asked::Owner);
                self.order(alloc, Order::Told(join), Sight::Unplayed, answers, frames)
            }
            TextForm::Script(_) => Ok(()),
        }
    }

    /// Does a whole piece, or the last one.
    pub(crate) fn piece<A: Sink, F: Sink>(
        &mut self,
        alloc: Global,
        piece: &[u8],
        answers: &mut A,
        frames: &mut F,
    ) -> Result<(), Stop>
        requires ready { IsReady self.old }
        requires some { 1 ≤ length piece.now }
        requires few { length piece.now ≤ most_of self.old.form }
        ensures step { (pieces : List (List ℕ)) (began : Sinks) → HasDone self.old.form pieces self.old began (held (A.written answers.old) (A.faults answers.old) (F.written frames.old) (F.faults frames.old)) →
            PieceEnds self.old.form (piece.now ∷ pieces) result self.new began (held (A.written answers.new) (A.faults answers.new) (F.written frames.new) (F.faults frames.new)) }
        ensures ready { OnOk result (IsReady self.new) }
        ensures form { self.new.form ≡ self.old.form }
        ensures grows { OnOk result (self.new.read ≡ self.old.read + length piece.now) }
    {
        match self.form {
            TextForm::Draw(_) => {
                self.draw(alloc, piece, answers, frames)?;
                self.read += piece.len() as u64;
                Ok(())
            }
            TextForm::Script(entries) => {
                self.script_line(alloc, entries, piece, answers, frames)?;
                self.read += piece.len() as u64;
                Ok(())
            }
        }
    }

    // Draws a piece: the host sends it, and viewer 1 reads and acknowledges its frame.
    fn draw<A: Sink, F: Sink>(
        &mut self,
        alloc: Global,
        piece: &[u8],
        answers: &mut A,
        frames: &mut F,
    ) -> Result<(), Stop>
        requires open { IsOpen self.old.state.session }
        requires count { self.old.lines < 2 ^ 61 }
        requires some { 1 ≤ length piece.now }
        requires few { length piece.now ≤ 65536 }
        ensures step { (orders : List Orders) (began : Sinks) → At Unplayed orders self.old began (held (A.written answers.old) (A.faults answers.old) (F.written frames.old) (F.faults frames.old)) →
            Ends Unplayed (Untold (Acknowledge 1) ∷ Untold (Read 1) ∷ Told (Server piece.now) ∷ orders) result self.new began (held (A.written answers.new) (A.faults answers.new) (F.written frames.new) (F.faults frames.new)) }
        ensures open { OnOk result (KeepsOpen 1 self.old.state.session self.new.state.session) }
        ensures lines { OnOk result (self.new.lines ≡ self.old.lines + 3) }
        ensures form { self.new.form ≡ self.old.form }
        ensures read { self.new.read ≡ self.old.read }
    {
        let bytes = Bytes::of(Vec::from_slice(alloc, piece)?);
        let sight = Sight::Unplayed;
        let fed = Order::Told(Line::Server(bytes));
        self.order(alloc, fed, sight, answers, frames)?;
        self.order(alloc, Order::Untold(Line::Read(1)), sight, answers, frames)?;
        let acknowledged = Order::Untold(Line::Acknowledge(1));
        self.order(alloc, acknowledged, sight, answers, frames)
    }

    // Does a script's line.
    fn script_line<A: Sink, F: Sink>(
        &mut self,
        alloc: Global,
        entries: u64,
        piece: &[u8],
        answers: &mut A,
        frames: &mut F,
    ) -> Result<(), Stop>
        requires form { IsTextForm (Script entries) }
        requires count { self.old.lines < 2 ^ 61 }
        requires read { self.old.read ≤ most_script }
        requires few { length piece.now ≤ 262146 }
        ensures step { (orders : List Orders) (began : Sinks) → At Played orders self.old began (held (A.written answers.old) (A.faults answers.old) (F.written frames.old) (F.faults frames.old)) →
            Ends Played (Told (judged entries (is_some self.old.state.session) self.old.read piece.now) ∷ orders) result self.new began (held (A.written answers.new) (A.faults answers.new) (F.written frames.new) (F.faults frames.new)) }
        ensures fits { OnOk result (self.old.read + length piece.now ≤ most_script) }
        ensures lines { OnOk result (self.new.lines ≡ self.old.lines + 1) }
        ensures form { self.new.form ≡ self.old.form }
        ensures read { self.new.read ≡ self.old.read }
    {
        let opened = self.state.session.is_some();
        let line = judged(alloc, entries, opened, self.read, piece)?;
        self.order(alloc, Order::Told(line), Sight::Played, answers, frames)
    }

    /// Does what comes after the last piece: `draw` tells the newest stamp.
    pub(crate) fn finish<A: Sink, F: Sink>(
        &mut self,
        alloc: Global,
        answers: &mut A,
        frames: &mut F,
    ) -> Result<(), Stop>
        requires ready { IsReady self.old }
        ensures { (pieces : List (List ℕ)) (began : Sinks) → HasDone self.old.form pieces self.old began (held (A.written answers.old) (A.faults answers.old) (F.written frames.old) (F.faults frames.old)) →
            LastEnds (ending self.old.form (lines_of self.old.form pieces)) result began (held (A.written answers.new) (A.faults answers.new) (F.written frames.new) (F.faults frames.new)) }
    {
        match self.form {
            TextForm::Draw(_) => {
                let done = Order::Told(Line::Done);
                self.order(alloc, done, Sight::Unplayed, answers, frames)
            }
            TextForm::Script(_) => Ok(()),
        }
    }
}

// The stop of a run that was halted at the line with this number, counted from 1.
fn stop_of(halt: Halt, number: u64) -> Stop
    ensures { result ≡ stop_of halt number }
{
    match halt {
        Halt::NoMemory => Stop::NoMemory,
        Halt::OutsideGrammar => Stop::Refused(Refused::BadLine(number)),
        Halt::Worn(entries) => Stop::Refused(Refused::Worn(entries)),
    }
}
