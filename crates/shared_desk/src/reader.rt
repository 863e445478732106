//! The pass that reads for a viewer.

ghost use Rattle.std.specs.Prelude.{◌≡◌, ◌++◌, List, Ok};
ghost use Rattle.gate_model.specs.declared.instr.Instr.{Instr};

use crate::member::Member;
use desk_core::{NoViewer, ReadAnswer, ReadRefusal};
use std::marker::Model;
use std::sync::Wait;
use wake_spot::Spots;

/// The pass that reads for a viewer: every Read of the viewer is its own (this project's own rule).
#[derive(Drop)]
pub struct ReaderPass {
    pub(crate) member: Member,
    pub(crate) viewer: u32,
}

impl Model for ReaderPass {
    ghost use Rattle.shared_desk.specs.Marks.{reader_mark};
    ghost use Rattle.shared_desk.specs.Members.{ViewerState, IsViewers};

    ghost Value = { ViewerState };

    ghost view = { λ p. record { session = p.member.session; view = p.member.view; viewer = p.viewer } };

    ghost invariant = { λ p. IsViewers (reader_mark p.viewer) p.viewer p.member.view };
}

impl ReaderPass {
    ghost use Rattle.gate_model.specs.session.Delivered.{delivered};
    ghost use Rattle.gate_model.specs.text.Text.{texts};
    ghost use Rattle.gate_model.specs.declared.answer.Answer.TheVariants.{Leave as left};
    ghost use Rattle.gate_model.specs.declared.event.Event.TheVariants.{Read, Leave};
    ghost use Rattle.desk_core.specs.Calls.{read_answer};
    ghost use Rattle.shared_desk.specs.Called.{Called, Gives, Loads};
    ghost use Rattle.shared_desk.specs.Members.{IsSound, KnowsViewer, Stays};

    /// The viewer's number.
    pub fn viewer(&self) -> u32
        ensures { result ≡ self.now.viewer }
    {
        self.viewer
    }

    /// What this pass has seen is a sound history, in which its viewer has joined. It tells so, and does nothing.
    pub fn history_is_sound(&self)
        ensures sound { IsSound self.now.view.seen }
        ensures knows { KnowsViewer self.now.viewer self.now.view }
    {
        self.member.history_is_sound();
    }

    /// `Desk::read`, in a turn. It appends the text of what the viewer was given by it.
    pub fn read<R: Wait>(&mut self, rt: &R, into: &mut Vec<u8>) -> Result<ReadAnswer, ReadRefusal>
        ensures stays { Stays self.old self.new }
        ensures gives { Gives self.old.view (Read self.old.viewer) (read_answer result) self.new.view into.old.items into.new.items }
        ensures delivered { (more : List Instr) × (delivered self.new.view.seen self.old.viewer ≡ delivered self.old.view.seen self.old.viewer ++ more) × (into.new.items ≡ into.old.items ++ texts more) }
    {
        self.member.read(rt, self.viewer, into)
    }

    /// `Desk::leave` for the viewer, in a turn.
    pub fn leave<R: Wait>(&mut self, rt: &R) -> Result<(), NoViewer>
        ensures stays { Stays self.old self.new }
        ensures called { Called self.old.view (Leave self.old.viewer) (Ok (left result)) self.new.view }
        ensures delivered { delivered self.new.view.seen self.old.viewer ≡ delivered self.old.view.seen self.old.viewer }
    {
        self.member.leave(rt, self.viewer)
    }

    /// The spots at which those sleep who wait for news of the session. No clause speaks of them.
    pub fn spots(&self) -> &Spots {
        self.member.spots()
    }

    /// The number of entries that the session has, by one load.
    pub fn newest(&mut self) -> u64
        ensures stays { Stays self.old self.new }
        ensures loads { Loads self.old.view result self.new.view }
    {
        self.member.newest()
    }
}
