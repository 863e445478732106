//! The pass that takes what goes to the Telnet host.

ghost use Rattle.std.specs.Prelude.{◌≡◌, Ok, length, take};

use crate::member::Member;
use desk_core::{Closed, Taken};
use gate_model::Cause;
use std::marker::Model;
use std::sync::Wait;
use wake_spot::Spots;

/// The pass that takes what goes to the Telnet host: every Take of the session is its own (this project's own
/// rule).
#[derive(Drop)]
pub struct SenderPass {
    pub(crate) member: Member,
}

impl Model for SenderPass {
    ghost use Rattle.shared_desk.specs.Members.{PassState, HasMark};

    ghost Value = { PassState };

    ghost view = { λ p. p.member };

    ghost invariant = { λ p. HasMark 2 p.member.view };
}

impl SenderPass {
    ghost use Rattle.gate_model.specs.session.Output.{out, taken};
    ghost use Rattle.gate_model.specs.Sequences.{BeginsWith};
    ghost use Rattle.gate_model.specs.declared.answer.Answer.TheVariants.{Close as closed};
    ghost use Rattle.gate_model.specs.declared.event.Event.TheVariants.{Take, Close};
    ghost use Rattle.shared_desk.specs.Called.{Called, Loads, take_answer};
    ghost use Rattle.shared_desk.specs.Takes.{Fills, TakesNext};

    /// `Desk::take`, in a turn. It moves the next bytes of what the session sends, past those that this pass
    /// has taken.
    pub fn take<R: Wait>(&mut self, rt: &R, into: &mut [u8]) -> Taken
        ensures session { self.new.session ≡ self.old.session }
        ensures called { Called self.old.view (Take (length into.old)) (take_answer result into.new) self.new.view }
        ensures takes { TakesNext (length into.old) self.old.view.seen self.new.view.seen (take result.count into.new) result.count }
        ensures fills { Fills result.count into.old into.new }
    {
        self.member.take(rt, into)
    }

    /// `Desk::close`, in a turn.
    pub fn close<R: Wait>(&mut self, rt: &R, cause: Cause) -> Result<(), Closed>
        ensures session { self.new.session ≡ self.old.session }
        ensures called { Called self.old.view (Close cause) (Ok (closed result)) self.new.view }
        ensures taken { taken self.new.view.seen ≡ taken self.old.view.seen }
        ensures sent { BeginsWith (out self.new.view.seen) (out self.old.view.seen) }
    {
        self.member.close(rt, cause)
    }

    /// The spots at which those sleep who wait for news of the session. No clause speaks of them.
    pub fn spots(&self) -> &Spots {
        self.member.spots()
    }

    /// The number of entries that the session has, by one load.
    pub fn newest(&mut self) -> u64
        ensures session { self.new.session ≡ self.old.session }
        ensures loads { Loads self.old.view result self.new.view }
    {
        self.member.newest()
    }
}
