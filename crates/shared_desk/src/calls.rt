//! The desk's calls, each in a turn.

ghost use Rattle.std.specs.Prelude.{◌≡◌, ◌⊎◌, ℕ, List, [], true, false, Ok, Err, Some, length};
ghost use Rattle.gate_model.specs.declared.entry.Entry.{Entry};
ghost use Rattle.turn_lock.specs.Passes.{view_of, IsOutside, IsInside, IsNext};
ghost use Rattle.turn_lock.specs.Turns.{lock_in, pass_in, view_in, value_in};
ghost use Rattle.turn_lock.specs.Views.{passed, gained};
ghost use Rattle.shared_desk.specs.declared.held.Held.{Held};
ghost use Rattle.desk_core.specs.Desk.{Stands};
ghost use Rattle.shared_desk.specs.Marks.{mark_of};
ghost use Rattle.shared_desk.specs.Members.{IsEnding, IsPass};

use crate::held::Held;
use crate::member::Member;
use desk_core::laws::desks_are_whole;
use desk_core::{
    Closed, FeedRefusal, JoinRefusal, Joined, NoViewer, ReadAnswer, ReadRefusal, ResizeRefusal,
    Taken, WriteRefusal, Written,
};
use gate_model::laws::entries_are_few;
use gate_model::{Act, Asked, Cause, Entry};
use std::alloc::Global;
use std::marker::Brand;
use std::sync::Wait;
use turn_lock::{Adds, Turn};

impl Member {
    ghost use Rattle.gate_model.specs.session.Calls.{IsPiece, IsWrite};
    ghost use Rattle.gate_model.specs.terminal.Sizes.{IsScreenSize};
    ghost use Rattle.gate_model.specs.declared.answer.Answer.TheVariants.{Leave as left, Close as closed};
    ghost use Rattle.gate_model.specs.declared.event.Event.TheVariants.{Feed, Join, Read, Write, Resize, Take, Leave, Close};
    ghost use Rattle.desk_core.specs.Calls.{feed_answer, join_answer, read_answer, resize_answer, write_answer};
    ghost use Rattle.shared_desk.specs.Marks.{reader_mark, writer_mark};
    ghost use Rattle.shared_desk.specs.Called.{Called, Gives, take_answer};
    ghost use Rattle.shared_desk.specs.Takes.{Fills};

    /// `Desk::feed`, in a turn.
    pub(crate) fn feed<R: Wait>(
        &mut self,
        rt: &R,
        alloc: Global,
        bytes: &[u8],
        now: u64,
    ) -> Result<u64, FeedRefusal>
        requires piece { IsPiece bytes.now }
        requires mark { self.old.view.mark ≡ Some 1 }
        ensures session { self.new.session ≡ self.old.session }
        ensures called { Called self.old.view (Feed bytes.now now) (feed_answer result) self.new.view }
    {
        let mut turn = self.lock.turn(rt, &mut self.pass);
        let desk = &mut turn.value().desk;
        let entries = desk.entries();
        let result = desk.feed(alloc, bytes, now);
        let appended = desk.entries() > entries;
        self.lock.spots().tell_output(desk.pending());
        end_turn::<Brand, _>(turn, appended, &(bytes, now, &result));
        result
    }

    /// `Desk::join`, in a turn.
    pub(crate) fn join<R: Wait>(
        &mut self,
        rt: &R,
        asked: Asked,
        into: &mut Vec<u8>,
    ) -> Result<Joined, JoinRefusal>
        requires mark { self.old.view.mark ≡ Some 0 }
        ensures session { self.new.session ≡ self.old.session }
        ensures called { Gives self.old.view (Join asked) (join_answer result) self.new.view into.old.items into.new.items }
    {
        let before = into.len();
        let mut turn = self.lock.turn(rt, &mut self.pass);
        let desk = &mut turn.value().desk;
        let entries = desk.entries();
        let result = desk.join(asked, into);
        let appended = desk.entries() > entries;
        end_turn::<Brand, _>(turn, appended, &(asked, &result, before, &*into));
        result
    }

    /// `Desk::refuse`, in a turn: why a viewer is refused that joins where memory is wanting.
    pub(crate) fn refuse<R: Wait>(&mut self, rt: &R, asked: Asked) -> JoinRefusal
        requires mark { self.old.view.mark ≡ Some 0 }
        ensures session { self.new.session ≡ self.old.session }
        ensures called { (text : List ℕ) → Gives self.old.view (Join asked) (join_answer (Err result)) self.new.view text text }
    {
        let mut turn = self.lock.turn(rt, &mut self.pass);
        let refusal = turn.value().desk.refuse(asked);
        end_turn::<Brand, _>(turn, false, &(asked, &refusal));
        refusal
    }

    /// `Desk::read`, in a turn.
    pub(crate) fn read<R: Wait>(
        &mut self,
        rt: &R,
        viewer: u32,
        into: &mut Vec<u8>,
    ) -> Result<ReadAnswer, ReadRefusal>
        requires mark { self.old.view.mark ≡ Some (reader_mark viewer) }
        ensures session { self.new.session ≡ self.old.session }
        ensures called { Gives self.old.view (Read viewer) (read_answer result) self.new.view into.old.items into.new.items }
    {
        let before = into.len();
        let mut turn = self.lock.turn(rt, &mut self.pass);
        let desk = &mut turn.value().desk;
        let entries = desk.entries();
        let result = desk.read(viewer, into);
        let appended = desk.entries() > entries;
        end_turn::<Brand, _>(turn, appended, &(viewer, &result, before, &*into));
        result
    }

    /// `Desk::write`, in a turn.
    pub(crate) fn write<R: Wait>(
        &mut self,
        rt: &R,
        alloc: Global,
        viewer: u32,
        acts: &[Act],
    ) -> Result<Written, WriteRefusal>
        requires few { IsWrite acts.now }
        requires mark { self.old.view.mark ≡ Some (writer_mark viewer) }
        ensures session { self.new.session ≡ self.old.session }
        ensures called { Called self.old.view (Write viewer acts.now) (write_answer result) self.new.view }
    {
        let mut turn = self.lock.turn(rt, &mut self.pass);
        let desk = &mut turn.value().desk;
        let entries = desk.entries();
        let result = desk.write(alloc, viewer, acts);
        let appended = desk.entries() > entries;
        self.lock.spots().tell_output(desk.pending());
        end_turn::<Brand, _>(turn, appended, &(viewer, acts, &result));
        result
    }

    /// `Desk::resize`, in a turn.
    pub(crate) fn resize<R: Wait>(
        &mut self,
        rt: &R,
        alloc: Global,
        viewer: u32,
        cols: u16,
        rows: u16,
    ) -> Result<u64, ResizeRefusal>
        requires size { IsScreenSize cols rows }
        requires mark { self.old.view.mark ≡ Some (writer_mark viewer) }
        ensures session { self.new.session ≡ self.old.session }
        ensures called { Called self.old.view (Resize viewer cols rows) (resize_answer result) self.new.view }
    {
        let mut turn = self.lock.turn(rt, &mut self.pass);
        let desk = &mut turn.value().desk;
        let entries = desk.entries();
        let result = desk.resize(alloc, viewer, cols, rows);
        let appended = desk.entries() > entries;
        self.lock.spots().tell_output(desk.pending());
        end_turn::<Brand, _>(turn, appended, &(viewer, cols, rows, &result));
        result
    }

    /// `Desk::take`, in a turn.
    pub(crate) fn take<R: Wait>(&mut self, rt: &R, into: &mut [u8]) -> Taken
        requires mark { self.old.view.mark ≡ Some 2 }
        ensures session { self.new.session ≡ self.old.session }
        ensures called { Called self.old.view (Take (length into.old)) (take_answer result into.new) self.new.view }
        ensures fills { Fills result.count into.old into.new }
    {
        let most = into.len();
        let mut turn = self.lock.turn(rt, &mut self.pass);
        let desk = &mut turn.value().desk;
        let entries = desk.entries();
        let result = desk.take(into);
        let appended = desk.entries() > entries;
        self.lock.spots().tell_output(desk.pending());
        end_turn::<Brand, _>(turn, appended, &(most, &*into, &result));
        result
    }

    /// `Desk::leave`, in a turn.
    pub(crate) fn leave<R: Wait>(&mut self, rt: &R, viewer: u32) -> Result<(), NoViewer>
        ensures session { self.new.session ≡ self.old.session }
        ensures called { Called self.old.view (Leave viewer) (Ok (left result)) self.new.view }
    {
        let mut turn = self.lock.turn(rt, &mut self.pass);
        let desk = &mut turn.value().desk;
        let entries = desk.entries();
        let result = desk.leave(viewer);
        let appended = desk.entries() > entries;
        end_turn::<Brand, _>(turn, appended, &(viewer, &result));
        result
    }

    /// `Desk::close`, in a turn.
    pub(crate) fn close<R: Wait>(&mut self, rt: &R, cause: Cause) -> Result<(), Closed>
        ensures session { self.new.session ≡ self.old.session }
        ensures called { Called self.old.view (Close cause) (Ok (closed result)) self.new.view }
    {
        let mut turn = self.lock.turn(rt, &mut self.pass);
        let desk = &mut turn.value().desk;
        let entries = desk.entries();
        let result = desk.close(cause);
        let appended = desk.entries() > entries;
        self.lock.spots().tell_closed();
        end_turn::<Brand, _>(turn, appended, &(cause, &result));
        result
    }
}

// Ends a turn, in which an entry was added or not. By what was told the caller's proof picks what is said of
// the entry.
pub(crate) fn end_turn<N: Adds<Entry>, A>(turn: Turn<'_, Held>, appended: bool, told: &A)
    requires inside { IsInside (lock_in turn) (pass_in turn).now }
    requires ends { IsEnding N.adds (value_in turn) (view_in turn) appended }
    ensures outside { IsOutside (lock_in turn.entry) turn.exit.1.0.now }
    ensures added { appended ≡ true → (e : Entry) × IsNext (λ (w : Held) h. Stands w.desk h) mark_of N.adds (value_in turn.entry) (view_in turn.entry) e × (view_of turn.exit.1.0.now ≡ passed (gained e (view_in turn.entry))) }
    ensures same { appended ≡ false → view_of turn.exit.1.0.now ≡ passed (view_in turn.entry) }
    ensures pass { IsPass (view_of turn.exit.1.0.now) }
{
    let _ = told;
    // So the number of entries doesn't overflow.
    entries_are_few();
    // So the history that is left is sound.
    desks_are_whole();
    turn.pass_on::<N>(appended);
}
