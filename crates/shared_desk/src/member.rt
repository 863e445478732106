//! A pass with the lock of its session.

ghost use Rattle.std.specs.Prelude.{◌≡◌, ◌≤◌, ℕ, List, None, Contains, length};

use crate::held::Held;
use desk_core::Desk;
use std::alloc::Global;
use std::marker::Model;
use std::sync::{Arc, Wait};
use turn_lock::{Pass, TurnLock};
use wake_spot::Spots;

/// What each kind of pass holds: a pass outside any turn, and the lock that it belongs to.
pub struct Member {
    pub(crate) lock: Arc<TurnLock<Held>, Global>,
    pub(crate) pass: Pass<Held>,
}

// Not derived, so that the crates above prove a call where a pass is dropped, and not its parts anew.
impl Drop for Member {
    fn drop(self) {
        let Member { lock: _, pass: _ } = self;
    }
}

impl Model for Member {
    ghost use Rattle.std.specs.Arc.{arc_value};
    ghost use Rattle.turn_lock.specs.Passes.{name_of, view_of, IsOutside};
    ghost use Rattle.shared_desk.specs.Members.{PassState, IsPass};

    ghost Value = { PassState };

    ghost view = { λ m. record { session = name_of (arc_value m.lock); view = view_of m.pass } };

    ghost invariant = { λ m. IsOutside (arc_value m.lock) m.pass × IsPass (view_of m.pass) };
}

impl Member {
    ghost use Rattle.std.specs.Arc.{arc_value};
    ghost use Rattle.turn_lock.specs.Passes.{name_of};
    ghost use Rattle.turn_lock.specs.Views.{giving, part_of, joined, MayGive};
    ghost use Rattle.gate_model.specs.session.History.{joined as viewers};
    ghost use Rattle.gate_model.specs.Limits.{most_joined};
    ghost use Rattle.gate_model.specs.Sequences.{IsLater};
    ghost use Rattle.gate_model.specs.declared.entry.Entry.{Entry};
    ghost use Rattle.desk_core.specs.Desk.{Stands};
    ghost use Rattle.shared_desk.specs.Called.{Loads};
    ghost use Rattle.shared_desk.specs.Members.{IsSound};

    /// The number of entries that the history has, by one load.
    pub(crate) fn newest(&mut self) -> u64
        ensures session { self.new.session ≡ self.old.session }
        ensures loads { Loads self.old.view result self.new.view }
    {
        self.lock.newest(&mut self.pass)
    }

    /// The spots at which those sleep who wait for news of the session.
    pub(crate) fn spots(&self) -> &Spots {
        self.lock.spots()
    }

    /// A new pass of the mark, which has seen what this has. The lock is this one's.
    pub(crate) fn part(&mut self, lock: Arc<TurnLock<Held>, Global>, mark: Option<u64>) -> Member
        requires lock { name_of (arc_value lock) ≡ self.old.session }
        requires may { MayGive mark self.old.view }
        ensures session { (self.new.session ≡ self.old.session) × (result.session ≡ self.old.session) }
        ensures giver { self.new.view ≡ giving mark self.old.view }
        ensures part { result.view ≡ part_of mark self.old.view }
    {
        let pass = self.lock.split(&mut self.pass, mark);
        Member { lock, pass }
    }

    /// Joins another pass of the session to this one.
    pub(crate) fn merge(&mut self, other: Member)
        requires session { other.session ≡ self.old.session }
        requires not_first { other.view.given ≡ None }
        ensures session { self.new.session ≡ self.old.session }
        ensures view { self.new.view ≡ joined self.old.view other.view }
        ensures begins { IsLater self.old.view.seen self.new.view.seen × IsLater other.view.seen self.new.view.seen }
        ensures apart { (p : ℕ) → Contains self.old.view.mine p → ¬ (Contains other.view.mine p) }
    {
        let Member { lock: _, pass } = other;
        self.lock.join(&mut self.pass, pass);
    }

    /// The viewers that have joined are at most 1,000,000, so that the number of passes doesn't overflow.
    pub(crate) fn viewers_are_few(&self)
        ensures { viewers self.now.view.seen ≤ most_joined }
    {
        let _ = &self.pass;
    }

    /// What the pass has seen is sound.
    pub(crate) fn history_is_sound(&self)
        ensures { IsSound self.now.view.seen }
    {
        let _ = &self.pass;
    }

    /// The desk, after a last turn.
    pub(crate) fn finish<R: Wait>(self, rt: &R) -> Desk
        ensures { (h : List Entry) × Stands result h × IsLater self.view.seen h × (self.view.known ≤ length h) }
    {
        let Member { lock, pass } = self;
        lock.finish(rt, pass).into_desk()
    }
}
