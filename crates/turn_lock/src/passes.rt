//! The calls on passes outside a turn. None of them waits.
ghost use Rattle.std.specs.Prelude.{◌≡◌, ◌≤◌, ℕ, None, true, Contains, length};

use crate::kept::Kept;
use crate::lock::TurnLock;
use crate::pass::Pass;
use crate::plays::{Count, JoinViews, Marks, MeetViews, SplitView, Tell};
use crate::steps::COUNT;
use std::marker::Brand;

impl<V: Kept + Drop> TurnLock<V> {
    ghost use Rattle.gate_model.specs.Sequences.{IsLater};
    ghost use Rattle.turn_lock.specs.Passes.{view_of, IsOutside, IsInside};
    ghost use Rattle.turn_lock.specs.Views.{knowing, giving, part_of, joined, meeting, MayGive, HasPlaces};

    /// The number of entries that the history has, by one load: at least as many as the pass had seen
    /// or known. It may have more by the time that the caller reads it.
    pub fn newest(&self, pass: &mut Pass<V>) -> u64
        requires outside { IsOutside self.now pass.old }
        ensures outside { IsOutside self.now pass.new }
        ensures seen { length (view_of pass.old).seen ≤ result }
        ensures known { (view_of pass.old).known ≤ result }
        ensures view { view_of pass.new ≡ knowing result (view_of pass.old) }
    {
        let shared = &self.table.shared;
        shared.load::<Count>(&mut pass.seat, COUNT)
    }

    /// A new pass, which has seen what this pass has, and no places. It has the mark, if one is given:
    /// only the first pass gives marks, each once and never 0.
    pub fn split(&self, pass: &mut Pass<V>, mark: Option<u64>) -> Pass<V>
        requires outside { IsOutside self.now pass.old }
        requires may { MayGive mark (view_of pass.old) }
        ensures outside { IsOutside self.now pass.new × IsOutside self.now result }
        ensures giver { view_of pass.new ≡ giving mark (view_of pass.old) }
        ensures part { view_of result ≡ part_of mark (view_of pass.old) }
        ensures places { HasPlaces V.mark (view_of result) }
    {
        self.split_as::<Brand>(pass, mark)
    }

    // The same, where a type names the mark, since it is a type that says how views are split.
    fn split_as<M: Marks>(&self, pass: &mut Pass<V>, mark: Option<u64>) -> Pass<V>
        requires outside { IsOutside self.now pass.old }
        requires mark { M.mark ≡ mark }
        requires may { MayGive mark (view_of pass.old) }
        ensures outside { IsOutside self.now pass.new × IsOutside self.now result }
        ensures giver { view_of pass.new ≡ giving mark (view_of pass.old) }
        ensures part { view_of result ≡ part_of mark (view_of pass.old) }
        ensures places { HasPlaces V.mark (view_of result) }
    {
        let _ = mark;
        let shared = &self.table.shared;
        let seat = shared.split_seat::<SplitView<M>>(&mut pass.seat);
        let mut part = Pass { seat };
        // It changes nothing, and tells that no entry of the mark was seen.
        self.look(&mut part);
        part
    }

    /// Joins `other`, which isn't the first pass, to `into`. That has then seen what either had: one of
    /// the two began what the other had seen. It has the places of both, of which none was in common,
    /// and keeps its mark; the other's is gone.
    pub fn join(&self, into: &mut Pass<V>, other: Pass<V>)
        requires outside { IsOutside self.now into.old × IsOutside self.now other }
        requires not_first { (view_of other).given ≡ None }
        ensures outside { IsOutside self.now into.new }
        ensures view { view_of into.new ≡ joined (view_of into.old) (view_of other) }
        ensures begins { IsLater (view_of into.old).seen (view_of into.new).seen × IsLater (view_of other).seen (view_of into.new).seen }
        ensures apart { (p : ℕ) → Contains (view_of into.old).mine p → ¬ (Contains (view_of other).mine p) }
        ensures places { HasPlaces V.mark (view_of into.new) }
    {
        let Pass { seat } = other;
        let shared = &self.table.shared;
        shared.join_seat::<JoinViews>(&mut into.seat, seat);
        // It changes nothing, and tells that no place stands twice, and that what was met begins what was
        // seen.
        self.look(into);
    }

    // What `Turn::meet` tells: a pass that has its turn takes in a part of the other, and looks.
    pub(crate) fn meet(&self, pass: &mut Pass<V>, other: &mut Pass<V>) -> u64
        requires inside { IsInside self.now pass.old }
        requires outside { IsOutside self.now other.old }
        ensures all { result ≡ length (view_of pass.old).seen }
        ensures seen { IsLater (view_of other.old).seen (view_of pass.old).seen }
        ensures known { (view_of other.old).known ≤ result }
        ensures other { IsOutside self.now other.new × (view_of other.new ≡ view_of other.old) }
        ensures inside { IsInside self.now pass.new }
        ensures view { view_of pass.new ≡ meeting (view_of other.old) (view_of pass.old) }
    {
        let Pass { seat } = self.split(other, None);
        let shared = &self.table.shared;
        shared.join_seat::<MeetViews>(&mut pass.seat, seat);
        shared.load::<Tell>(&mut pass.seat, COUNT)
    }
}
