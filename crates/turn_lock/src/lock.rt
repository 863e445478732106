//! The lock: its making, a turn, and its end.
ghost use Rattle.std.specs.Prelude.{◌≡◌};

use crate::beds::Beds;
use crate::kept::Kept;
use crate::pass::Pass;
use crate::rule::LockRule;
use crate::turn::Turn;
use crate::view::View;
use atomic_table::Table;
use gate_model::NoMemory;
use ghost_list::{GhostList, Lists};
use std::alloc::Global;
use std::sync::Wait;
use wake_spot::Spots;

/// A lock by tickets with one value. It is shared by `&` or in an `Arc`. Contracts name it by
/// `name_of` of `specs/Passes.antt`.
#[derive(Drop)]
pub struct TurnLock<V: Kept + Drop> {
    pub(crate) table: Table<Option<V>, View<V::Entry>, GhostList<V::Entry>, LockRule<V>, Global>,
    // Where passes sleep that wait for their turn, by their tickets. No clause speaks of it.
    pub(crate) beds: Beds,
    // Where those sleep who wait for news of the value. No clause speaks of it.
    pub(crate) spots: Spots,
    ghost shape: { (table.shared.table_id.words ≡ 3) × (table.shared.table_id.slots ≡ 1) },
}

impl<V: Kept + Drop> TurnLock<V> {
    ghost use Rattle.std.specs.Prelude.{◌≡◌, ◌≤◌, ℕ, List, length, IfOk};
    ghost use Rattle.gate_model.specs.Sequences.{IsLater};
    ghost use Rattle.turn_lock.specs.Passes.{view_of, IsOutside, IsInside};
    ghost use Rattle.turn_lock.specs.Places.{IsUnmarked};
    ghost use Rattle.turn_lock.specs.Turns.{lock_in, pass_in, view_in, value_in};
    ghost use Rattle.turn_lock.specs.Views.{beginning, with_ticket, entered, HasPlaces};

    /// A lock with the value, and its first pass, which has mark 0. The value stands for the list that
    /// `L` names, no entry of which has another mark than 0. For want of memory the value is dropped.
    pub fn new<L: Lists<V::Entry>>(
        alloc: Global,
        value: V,
    ) -> Result<(TurnLock<V>, Pass<V>), NoMemory>
        requires stands { V.stands value L.list }
        requires unmarked { IsUnmarked V.mark L.list }
        ensures outside { IfOk result (λ made. IsOutside made.0 made.1) }
        ensures view { IfOk result (λ made. view_of made.1 ≡ beginning V.mark L.list) }
        ensures places { IfOk result (λ made. HasPlaces V.mark (view_of made.1)) }
    {
        let (beds, spots) = resting(alloc)?;
        let words = [value.count(), 0, 0];
        let mut slots = Vec::with_capacity(alloc, 1)?;
        slots.push_reserved(Some(value));
        let opening = GhostList::of::<L>();
        match Table::new(alloc, &words, slots, &opening) {
            Ok((table, seat)) => Ok((TurnLock { table, beds, spots }, Pass { seat })),
            Err(_refused) => Err(NoMemory),
        }
    }

    /// The spots at which those sleep who wait for news of the value.
    pub fn spots(&self) -> &Spots {
        &self.spots
    }

    /// The pass's next turn. It waits until the value was passed on to this pass, which has then seen
    /// the whole history. The value stands for it.
    pub fn turn<'a, R: Wait>(&'a self, rt: &R, pass: &'a mut Pass<V>) -> Turn<'a, V>
        requires outside { IsOutside self.now pass.old }
        ensures lock { lock_in result ≡ self.now }
        ensures pass { (pass_in result).ghost_name ≡ pass.entry.ghost_name }
        ensures inside { IsInside (lock_in result) (pass_in result).now }
        ensures stands { V.stands (value_in result) (view_in result).seen }
        ensures seen { IsLater (view_of pass.old).seen (view_in result).seen }
        ensures known { (view_of pass.old).known ≤ length (view_in result).seen }
        ensures view { (t : ℕ) × (view_in result ≡ entered (view_in result).seen (with_ticket t (view_of pass.old))) }
        ensures places { HasPlaces V.mark (view_in result) }
    {
        let ticket = self.queue(rt, pass);
        self.enter(rt, pass, ticket);
        let value = self.take(pass);
        Turn {
            lock: self,
            pass,
            value,
        }
    }

    /// The value, after a last turn that isn't passed on: a pass that is still out gets no further
    /// turn. The value stands for the whole history, whose beginning is what the pass had seen.
    pub fn finish<R: Wait>(&self, rt: &R, mut pass: Pass<V>) -> V
        requires outside { IsOutside self.now pass }
        ensures { (h : List V.Entry) × V.stands result h × IsLater (view_of pass).seen h × ((view_of pass).known ≤ length h) }
    {
        let ticket = self.queue(rt, &mut pass);
        self.enter(rt, &mut pass, ticket);
        self.take(&mut pass)
    }
}

// Where passes sleep, and those who wait for news.
fn resting(alloc: Global) -> Result<(Beds, Spots), NoMemory> {
    Ok((Beds::new(alloc)?, Spots::new(alloc)?))
}
