//! The pass that writes for a viewer.

ghost use Rattle.std.specs.Prelude.{◌≡◌, ◌++◌, List, [], ◌∷◌, Ok, is_ok, if◌then◌else◌};

use crate::member::Member;
use desk_core::{NoViewer, ResizeRefusal, WriteRefusal, Written};
use gate_model::Act;
use std::alloc::Global;
use std::marker::Model;
use std::sync::Wait;
use wake_spot::Spots;

/// The pass that writes for a viewer: every Write and every Size of the viewer is its own (this project's own rule).
#[derive(Drop)]
pub struct WriterPass {
    pub(crate) member: Member,
    pub(crate) viewer: u32,
}

impl Model for WriterPass {
    ghost use Rattle.shared_desk.specs.Marks.{writer_mark};
    ghost use Rattle.shared_desk.specs.Members.{ViewerState, IsViewers};

    ghost Value = { ViewerState };

    ghost view = { λ p. record { session = p.member.session; view = p.member.view; viewer = p.viewer } };

    ghost invariant = { λ p. IsViewers (writer_mark p.viewer) p.viewer p.member.view };
}

impl WriterPass {
    ghost use Rattle.gate_model.specs.session.Calls.{IsWrite};
    ghost use Rattle.gate_model.specs.terminal.Sizes.{IsScreenSize};
    ghost use Rattle.gate_model.specs.declared.entry.Entry.{Entry};
    ghost use Rattle.gate_model.specs.declared.answer.Answer.TheVariants.{Leave as left};
    ghost use Rattle.gate_model.specs.declared.entry.Entry.TheVariants.{Write as Wrote, Leave as Left};
    ghost use Rattle.gate_model.specs.declared.event.Event.TheVariants.{Write, Resize, Leave};
    ghost use Rattle.desk_core.specs.Calls.{resize_answer, write_answer};
    ghost use Rattle.shared_desk.specs.Called.{Called, Loads};
    ghost use Rattle.shared_desk.specs.Members.{IsSound, KnowsViewer, Stays};
    ghost use Rattle.shared_desk.specs.Own.{AreSized, own_entries};

    /// The viewer's number.
    pub fn viewer(&self) -> u32
        ensures { result ≡ self.now.viewer }
    {
        self.viewer
    }

    /// What this pass has seen is a sound history, in which its viewer has joined. It tells so, and does nothing.
    pub fn history_is_sound(&self)
        ensures sound { IsSound self.now.view.seen }
        ensures knows { KnowsViewer self.now.viewer self.now.view }
    {
        self.member.history_is_sound();
    }

    /// `Desk::write` for the viewer, in a turn. It is the last entry of this pass's own.
    pub fn write<R: Wait>(
        &mut self,
        rt: &R,
        alloc: Global,
        acts: &[Act],
    ) -> Result<Written, WriteRefusal>
        requires { IsWrite acts.now }
        ensures stays { Stays self.old self.new }
        ensures called { Called self.old.view (Write self.old.viewer acts.now) (write_answer result) self.new.view }
        ensures own { own_entries self.new.view ≡ (if is_ok result then Wrote self.old.viewer acts.now ∷ [] else []) ++ own_entries self.old.view }
    {
        self.member.write(rt, alloc, self.viewer, acts)
    }

    /// `Desk::resize` for the viewer, in a turn: 1 to 512 columns and 1 to 256 rows. It is the last entry of this pass's
    /// own.
    pub fn resize<R: Wait>(
        &mut self,
        rt: &R,
        alloc: Global,
        cols: u16,
        rows: u16,
    ) -> Result<u64, ResizeRefusal>
        requires { IsScreenSize cols rows }
        ensures stays { Stays self.old self.new }
        ensures called { Called self.old.view (Resize self.old.viewer cols rows) (resize_answer result) self.new.view }
        ensures own { (sized : List Entry) × AreSized self.old.viewer cols rows result sized × (own_entries self.new.view ≡ sized ++ own_entries self.old.view) }
    {
        self.member.resize(rt, alloc, self.viewer, cols, rows)
    }

    /// `Desk::leave` for the viewer, in a turn.
    pub fn leave<R: Wait>(&mut self, rt: &R) -> Result<(), NoViewer>
        ensures stays { Stays self.old self.new }
        ensures called { Called self.old.view (Leave self.old.viewer) (Ok (left result)) self.new.view }
        ensures own { own_entries self.new.view ≡ (if is_ok result then Left self.old.viewer ∷ [] else []) ++ own_entries self.old.view }
    {
        self.member.leave(rt, self.viewer)
    }

    /// The spots at which those sleep who wait for news of the session. No clause speaks of them.
    pub fn spots(&self) -> &Spots {
        self.member.spots()
    }

    /// The number of entries that the session has, by one load.
    pub fn newest(&mut self) -> u64
        ensures stays { Stays self.old self.new }
        ensures loads { Loads self.old.view result self.new.view }
    {
        self.member.newest()
    }
}
