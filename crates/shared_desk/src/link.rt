//! The pass that feeds what the Telnet host sends.

ghost use Rattle.std.specs.Prelude.{◌≡◌, ◌++◌, Ok, is_ok, if◌then◌else◌};

use crate::member::Member;
use desk_core::{Closed, FeedRefusal};
use gate_model::Cause;
use std::alloc::Global;
use std::marker::Model;
use std::sync::Wait;
use wake_spot::Spots;

/// The pass that feeds what the Telnet host sends: every Feed of the session is its own (this project's own
/// rule).
#[derive(Drop)]
pub struct LinkPass {
    pub(crate) member: Member,
}

impl Model for LinkPass {
    ghost use Rattle.shared_desk.specs.Members.{PassState, HasMark};

    ghost Value = { PassState };

    ghost view = { λ p. p.member };

    ghost invariant = { λ p. HasMark 1 p.member.view };
}

impl LinkPass {
    ghost use Rattle.gate_model.specs.session.Calls.{IsPiece};
    ghost use Rattle.gate_model.specs.session.History.{bytes as heard};
    ghost use Rattle.gate_model.specs.declared.answer.Answer.TheVariants.{Close as closed};
    ghost use Rattle.gate_model.specs.declared.event.Event.TheVariants.{Feed, Close};
    ghost use Rattle.desk_core.specs.Calls.{feed_answer};
    ghost use Rattle.shared_desk.specs.Called.{Called, Loads};

    /// `Desk::feed`, in a turn. The bytes that the session has heard are those of this pass.
    pub fn feed<R: Wait>(
        &mut self,
        rt: &R,
        alloc: Global,
        bytes: &[u8],
        now: u64,
    ) -> Result<u64, FeedRefusal>
        requires { IsPiece bytes.now }
        ensures session { self.new.session ≡ self.old.session }
        ensures called { Called self.old.view (Feed bytes.now now) (feed_answer result) self.new.view }
        ensures heard { heard self.new.view.seen ≡ (if is_ok result then heard self.old.view.seen ++ bytes.now else heard self.old.view.seen) }
    {
        self.member.feed(rt, alloc, bytes, now)
    }

    /// `Desk::close`, in a turn.
    pub fn close<R: Wait>(&mut self, rt: &R, cause: Cause) -> Result<(), Closed>
        ensures session { self.new.session ≡ self.old.session }
        ensures called { Called self.old.view (Close cause) (Ok (closed result)) self.new.view }
        ensures heard { heard self.new.view.seen ≡ heard self.old.view.seen }
    {
        self.member.close(rt, cause)
    }

    /// The spots at which those sleep who wait for news of the session. No clause speaks of them.
    pub fn spots(&self) -> &Spots {
        self.member.spots()
    }

    /// The number of entries that the session has, by one load.
    pub fn newest(&mut self) -> u64
        ensures session { self.new.session ≡ self.old.session }
        ensures loads { Loads self.old.view result self.new.view }
    {
        self.member.newest()
    }
}
