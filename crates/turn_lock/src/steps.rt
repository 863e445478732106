//! The steps of a turn, one function each. None of them waits.
ghost use Rattle.std.specs.Prelude.{◌≡◌, ◌-◌, ◌^◌, ◌<◌, true, false, [], ◌∷◌, Some, None};

use crate::kept::{Adds, Kept};
use crate::lock::TurnLock;
use crate::pass::Pass;
use crate::plays::{Draw, Look, PassOn, Raise};

// The lock's words: the number of entries, the next ticket, and the ticket that is served.
pub(crate) const COUNT: usize = 0;

pub(crate) const NEXT: usize = 1;

pub(crate) const SERVING: usize = 2;

// The lock's slot.
const VALUE: usize = 0;

impl<V: Kept + Drop> TurnLock<V> {
    ghost use Rattle.gate_model.specs.Sequences.{IsLater};
    ghost use Rattle.turn_lock.specs.Passes.{name_of, lock_of, view_of, IsOutside, IsWaiting, IsInside, IsNext};
    ghost use Rattle.turn_lock.specs.Steps.{HasEntered};
    ghost use Rattle.turn_lock.specs.Views.{with_ticket, passed, gained, MayAdd, HasPlaces};

    // One try at the ticket.
    pub(crate) fn draw(&self, pass: &mut Pass<V>, ticket: u64) -> bool
        requires outside { IsOutside self.now pass.old }
        requires below { ticket < 2 ^ 64 - 1 }
        ensures drawn { result ≡ true → IsWaiting self.now pass.new × (view_of pass.new ≡ with_ticket ticket (view_of pass.old)) }
        ensures missed { result ≡ false → IsOutside self.now pass.new × (view_of pass.new ≡ view_of pass.old) }
    {
        let shared = &self.table.shared;
        shared.compare_exchange::<Draw>(&mut pass.seat, NEXT, ticket, ticket + 1) == ticket
    }

    // The ticket that is served. The pass is inside where that is its own.
    pub(crate) fn look(&self, pass: &mut Pass<V>) -> u64
        requires waiting { IsWaiting self.now pass.old }
        ensures lock { lock_of pass.new ≡ name_of self.now }
        ensures entered { (view_of pass.old).ticket ≡ Some result → HasEntered V.stands pass.old.seat.me pass.new.seat.me }
        ensures stayed { ¬ ((view_of pass.old).ticket ≡ Some result) → pass.new.seat.me ≡ pass.old.seat.me }
        ensures places { HasPlaces V.mark (view_of pass.new) }
        ensures met { IsLater (view_of pass.new).met (view_of pass.new).seen }
    {
        let shared = &self.table.shared;
        shared.load::<Look<V>>(&mut pass.seat, SERVING)
    }

    // Takes the value out of the slot.
    pub(crate) fn take(&self, pass: &mut Pass<V>) -> V
        requires lock { lock_of pass.old ≡ name_of self.now }
        requires inside { (view_of pass.old).inside ≡ true }
        requires slot { (x : V) × (pass.old.seat.me.1 ≡ (0, Some x) ∷ []) }
        ensures value { pass.old.seat.me.1 ≡ (0, Some result) ∷ [] }
        ensures inside { IsInside self.now pass.new × (view_of pass.new ≡ view_of pass.old) }
    {
        let shared = &self.table.shared;
        let Some(value) = shared.exchange(&mut pass.seat, VALUE, None) else {
            unreachable!()
        };
        value
    }

    // Puts a value that stands for all that the pass has seen into the slot.
    pub(crate) fn put(&self, pass: &mut Pass<V>, value: V)
        requires inside { IsInside self.now pass.old }
        requires stands { V.stands value (view_of pass.old).seen }
        ensures lock { lock_of pass.new ≡ name_of self.now }
        ensures seat { pass.new.seat.me ≡ (view_of pass.old, (0, Some value) ∷ []) }
    {
        let shared = &self.table.shared;
        drop(shared.exchange(&mut pass.seat, VALUE, Some(value)));
    }

    // Adds an entry for which the value stands, while the value is out.
    pub(crate) fn raise<N: Adds<V::Entry>>(&self, pass: &mut Pass<V>, value: &V)
        requires inside { IsInside self.now pass.old }
        requires next { (e : V.Entry) × IsNext V.stands V.mark N.adds value.now (view_of pass.old) e }
        ensures inside { IsInside self.now pass.new }
        ensures raised { (e : V.Entry) × N.adds e × MayAdd V.mark (view_of pass.old) e × (view_of pass.new ≡ gained e (view_of pass.old)) }
    {
        // The proof alone reads the value: its list is short, so the number doesn't wrap.
        let _ = value;
        let shared = &self.table.shared;
        shared.fetch_add::<Raise<V, N>>(&mut pass.seat, COUNT, 1);
    }

    // Serves the next ticket.
    pub(crate) fn serve_next(&self, pass: &mut Pass<V>)
        requires lock { lock_of pass.old ≡ name_of self.now }
        requires inside { (view_of pass.old).inside ≡ true }
        requires slot { (x : V) × (pass.old.seat.me.1 ≡ (0, Some x) ∷ []) × V.stands x (view_of pass.old).seen }
        ensures outside { IsOutside self.now pass.new }
        ensures view { view_of pass.new ≡ passed (view_of pass.old) }
        ensures places { HasPlaces V.mark (view_of pass.new) }
    {
        let shared = &self.table.shared;
        shared.fetch_add::<PassOn<V>>(&mut pass.seat, SERVING, 1);
    }
}
