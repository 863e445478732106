//! A turn: the value is out with one pass, until that pass hands it on.
ghost use Rattle.std.specs.Prelude.{◌≡◌, ◌≤◌, true, false, length};
ghost use Rattle.std.specs.Borrow.{sem};
ghost use Rattle.gate_model.specs.Sequences.{IsLater};
ghost use Rattle.turn_lock.specs.Lending.{LendsValue};
ghost use Rattle.turn_lock.specs.Passes.{view_of, IsOutside, IsInside, IsNext};
ghost use Rattle.turn_lock.specs.Turns.{lock_in, pass_in, view_in, value_in};
ghost use Rattle.turn_lock.specs.Views.{passed, gained, meeting, HasPlaces};

use crate::kept::{Adds, Kept};
use crate::lock::TurnLock;
use crate::pass::Pass;
use std::marker::Brand;

/// A turn of a pass, with the value. It can't be dropped, so `pass_on` must spend it: until then no
/// other pass gets a turn.
pub struct Turn<'a, V: Kept + Drop> {
    pub(crate) lock: &'a TurnLock<V>,
    pub(crate) pass: &'a mut Pass<V>,
    pub(crate) value: V,
}

impl<'a, V: Kept + Drop> Turn<'a, V> {
    /// The value. The turn has whatever the caller leaves there, and is else as before.
    pub fn value<'s>(&'s mut self) -> &'s mut V
        ensures* lends { sem 𝓛 (LendsValue V.row V.Entry.row V.Kept self.entry result) }
        ensures value { result.now ≡ value_in self.old }
    {
        &mut self.value
    }

    /// Tells that the pass has seen, in its turn, all of the one history: as many entries as the lock
    /// counts, and all that `other` has seen or known, whichever pass of the lock that is. Both are as
    /// before, but that the turn has met what the other has seen.
    pub fn meet(&mut self, other: &mut Pass<V>) -> u64
        requires inside { IsInside (lock_in self.old) (pass_in self.old).now }
        requires outside { IsOutside (lock_in self.old) other.old }
        ensures all { result ≡ length (view_in self.old).seen }
        ensures seen { IsLater (view_of other.old).seen (view_in self.old).seen }
        ensures known { (view_of other.old).known ≤ result }
        ensures other { IsOutside (lock_in self.old) other.new × (view_of other.new ≡ view_of other.old) }
        ensures lock { lock_in self.new ≡ lock_in self.old }
        ensures pass { (pass_in self.new).ghost_name ≡ (pass_in self.old).ghost_name }
        ensures value { value_in self.new ≡ value_in self.old }
        ensures inside { IsInside (lock_in self.new) (pass_in self.new).now }
        ensures view { view_in self.new ≡ meeting (view_of other.old) (view_in self.old) }
    {
        self.lock.meet(self.pass, other)
    }

    /// Ends the turn and hands the value on, which stands for all that the pass had seen, followed by
    /// one entry exactly where `appended`. `N` names that entry, whose mark is the pass's or none. The
    /// pass is inside, as `turn` left it.
    pub fn pass_on<N: Adds<V::Entry>>(self, appended: bool)
        requires inside { IsInside (lock_in self) (pass_in self).now }
        requires added { appended ≡ true → (e : V.Entry) × IsNext V.stands V.mark N.adds (value_in self) (view_in self) e }
        requires same { appended ≡ false → V.stands (value_in self) (view_in self).seen }
        ensures outside { IsOutside (lock_in self.entry) self.exit.1.0.now }
        ensures added { appended ≡ true → (e : V.Entry) × IsNext V.stands V.mark N.adds (value_in self.entry) (view_in self.entry) e × (view_of self.exit.1.0.now ≡ passed (gained e (view_in self.entry))) }
        ensures same { appended ≡ false → view_of self.exit.1.0.now ≡ passed (view_in self.entry) }
        ensures seen { IsLater (view_in self.entry).seen (view_of self.exit.1.0.now).seen }
        ensures places { HasPlaces V.mark (view_of self.exit.1.0.now) }
    {
        let Turn { lock, pass, value } = self;
        lock.add::<N>(pass, &value, appended);
        lock.put(pass, value);
        lock.serve_next(pass);
        lock.wake();
    }
}

impl<V: Kept + Drop> TurnLock<V> {
    // Adds the entry, where one was appended to what the value stands for.
    fn add<N: Adds<V::Entry>>(&self, pass: &mut Pass<V>, value: &V, appended: bool)
        requires inside { IsInside self.now pass.old }
        requires added { appended ≡ true → (e : V.Entry) × IsNext V.stands V.mark N.adds value.now (view_of pass.old) e }
        requires same { appended ≡ false → V.stands value.now (view_of pass.old).seen }
        ensures inside { IsInside self.now pass.new }
        ensures stands { V.stands value.now (view_of pass.new).seen }
        ensures added { appended ≡ true → (e : V.Entry) × IsNext V.stands V.mark N.adds value.now (view_of pass.old) e × (view_of pass.new ≡ gained e (view_of pass.old)) }
        ensures same { appended ≡ false → view_of pass.new ≡ view_of pass.old }
        ensures seen { IsLater (view_of pass.old).seen (view_of pass.new).seen }
    {
        if appended {
            self.raise::<Brand>(pass, value);
        }
    }
}
