use crate::{AddRefusal, PlainShelf, Shelf};
use gate_model::NoMemory;
use gate_outside::Dice;
use std::alloc::Global;
use std::sync::{Arc, Condvar, Mutex, Wait};
use uuid::Uuid;

// The shelf behind its lock, and where threads wait for a lent value.
#[derive(Drop)]
struct Behind<V> {
    shelf: Mutex<PlainShelf<V>>,
    returned: Condvar,
}

/// A shelf that threads share; it doesn't tell what is there. `lend` and `remove` wait until a lent value is
/// back, and `back` drops the value of an ID that isn't lent.
#[derive(Drop)]
pub struct LockedShelf<V> {
    // One past 2^63 others has none.
    behind: Option<Arc<Behind<V>, Global>>,
}

impl<V: Drop> LockedShelf<V> {
    ghost use Rattle.std.specs.Prelude.{IfSome, true};
    ghost use Rattle.std.specs.Fn.{FnReturnsAt};

    /// A shelf with nothing on it.
    pub fn new(alloc: Global) -> Result<LockedShelf<V>, NoMemory> {
        let behind = Behind {
            shelf: Mutex::new(PlainShelf::new(alloc)),
            returned: Condvar::new(),
        };
        Ok(LockedShelf {
            behind: Some(Arc::new(alloc, behind)?),
        })
    }

    /// The same shelf once more, for another thread. One that would be past 2^63 others has nothing on it and
    /// takes nothing.
    pub fn another(&self) -> LockedShelf<V> {
        LockedShelf {
            behind: self
                .behind
                .as_ref()
                .and_then(|behind| Arc::try_clone(behind).ok()),
        }
    }

    /// Takes out the value with the least ID among those that aren't lent and for which `done` answers true,
    /// and its ID: `PlainShelf::sweep` under the lock.
    pub fn sweep<R: Wait, F: Fn(&V) -> bool>(&self, rt: &R, done: F) -> Option<(Uuid, V)>
        requires { F.IsAlwaysCallable done }
        ensures done { IfSome result (λ r. FnReturnsAt F.Fn done r.1 true) }
    {
        let behind = self.behind.as_ref()?;
        behind.shelf.lock(rt).sweep(done)
    }

    /// The least ID whose value isn't lent and for which `done` answers true: `PlainShelf::least_done` under the lock.
    pub fn least_done<R: Wait, F: Fn(&V) -> bool>(&self, rt: &R, done: F) -> Option<Uuid>
        requires { F.IsAlwaysCallable done }
    {
        let behind = self.behind.as_ref()?;
        behind.shelf.lock(rt).least_done(&done)
    }
}

impl<V: Drop> Shelf<V> for LockedShelf<V> {
    ghost use Rattle.std.specs.Prelude.{None};

    ghost told = { λ _. None };

    fn add<R: Wait, X: Dice>(
        &mut self,
        rt: &R,
        dice: &mut X,
        value: V,
    ) -> Result<Uuid, AddRefusal<V>> {
        match &self.behind {
            Some(behind) => behind.shelf.lock(rt).add(rt, dice, value),
            None => Err(AddRefusal::NoMemory(value)),
        }
    }

    fn has<R: Wait>(&mut self, rt: &R, id: &Uuid) -> bool {
        match &self.behind {
            Some(behind) => behind.shelf.lock(rt).has(rt, id),
            None => false,
        }
    }

    fn lend<R: Wait>(&mut self, rt: &R, id: &Uuid) -> Option<V> {
        let behind = self.behind.as_ref()?;
        let mut guard = behind.shelf.lock(rt);
        for _ in rt.forever() {
            if !guard.is_lent(id) {
                return guard.lend(rt, id);
            }
            guard = behind.returned.wait(rt, guard);
        }
        unreachable!()
    }

    fn back<R: Wait>(&mut self, rt: &R, id: &Uuid, value: V) {
        if let Some(behind) = &self.behind {
            let mut guard = behind.shelf.lock(rt);
            if guard.is_lent(id) {
                guard.back(rt, id, value);
            }
            drop(guard);
            behind.returned.notify_all();
        }
    }

    fn remove<R: Wait>(&mut self, rt: &R, id: &Uuid) -> Option<V> {
        let behind = self.behind.as_ref()?;
        let mut guard = behind.shelf.lock(rt);
        for _ in rt.forever() {
            if !guard.is_lent(id) {
                let value = guard.remove(rt, id);
                drop(guard);
                behind.returned.notify_all();
                return value;
            }
            guard = behind.returned.wait(rt, guard);
        }
        unreachable!()
    }
}
