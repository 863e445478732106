use crate::add_refusal::with_value;
use crate::{AddRefusal, IdTable, Shelf};
use gate_outside::Dice;
use std::alloc::Global;
use std::sync::Wait;
use uuid::Uuid;

/// A shelf for one thread. It tells what is there, and waits for nobody.
#[derive(Drop)]
pub struct PlainShelf<V> {
    // An ID whose value is lent has none.
    slots: IdTable<Option<V>>,
}

impl<V: Drop> PlainShelf<V> {
    ghost use Rattle.std.specs.Prelude.{◌≡◌, ◌↔◌, ℕ, List, Some, None, IsTrue, IfSome};
    ghost use Rattle.id_table.specs.Shelves.{shelved};

    /// A shelf with nothing on it.
    pub fn new(alloc: Global) -> PlainShelf<V>
        ensures { (id : List ℕ) → shelved result id ≡ None }
    {
        PlainShelf {
            slots: IdTable::new(alloc),
        }
    }

    /// Whether the value under the ID is lent.
    pub fn is_lent(&self, id: &Uuid) -> bool
        ensures { IsTrue result ↔ (shelved self.now id.now ≡ Some None) }
    {
        match self.slots.get(id) {
            Some(slot) => slot.is_none(),
            None => false,
        }
    }
}

impl<V: Drop> PlainShelf<V> {
    ghost use Rattle.std.specs.Prelude.{◌≡◌, Some, None, IfSome, IfNone, true, false};
    ghost use Rattle.std.specs.Fn.{FnReturnsAt};
    ghost use Rattle.id_table.specs.Maps.{Changed, Same};
    ghost use Rattle.id_table.specs.Shelves.{Each, EachBelow, Has, shelved};

    /// Takes out the value with the least ID among those that aren't lent and for which `done` answers true,
    /// and its ID. None comes exactly where there is none.
    pub fn sweep<F: Fn(&V) -> bool>(&mut self, done: F) -> Option<(Uuid, V)>
        requires { F.IsAlwaysCallable done }
        ensures taken { IfSome result (λ r. shelved self.old r.0 ≡ Some (Some r.1)) }
        ensures done { IfSome result (λ r. FnReturnsAt F.Fn done r.1 true) }
        ensures least { IfSome result (λ r. EachBelow r.0 (λ v. FnReturnsAt F.Fn done v false) (shelved self.old)) }
        ensures changed { IfSome result (λ r. Changed r.0 None (shelved self.old) (shelved self.new)) }
        ensures none { IfNone result (Each (λ v. FnReturnsAt F.Fn done v false) (shelved self.old)) }
        ensures same { IfNone result (Same (shelved self.old) (shelved self.new)) }
    {
        let id = self.least_done(&done)?;
        match self.slots.remove(&id) {
            Some(Some(value)) => Some((id, value)),
            Some(None) | None => unreachable!(),
        }
    }

    /// The least ID whose value isn't lent and for which `done` answers true. None comes exactly where there is none.
    pub fn least_done<F: Fn(&V) -> bool>(&self, done: &F) -> Option<Uuid>
        requires { F.IsAlwaysCallable done.now }
        ensures has { IfSome result (λ id. Has id (λ v. FnReturnsAt F.Fn done.now v true) (shelved self.now)) }
        ensures least { IfSome result (λ id. EachBelow id (λ v. FnReturnsAt F.Fn done.now v false) (shelved self.now)) }
        ensures none { IfNone result (Each (λ v. FnReturnsAt F.Fn done.now v false) (shelved self.now)) }
    {
        for (id, slot) in &self.slots.values {
            if let Some(value) = slot {
                if done(value) {
                    return Some(*id);
                }
            }
        }
        None
    }
}

impl<V: Drop> Shelf<V> for PlainShelf<V> {
    ghost use Rattle.std.specs.Prelude.{Some};
    ghost use Rattle.id_table.specs.Shelves.{shelved};

    ghost told = { λ s. Some (shelved s) };

    fn add<R: Wait, X: Dice>(
        &mut self,
        _rt: &R,
        dice: &mut X,
        value: V,
    ) -> Result<Uuid, AddRefusal<V>> {
        match self.slots.add(dice, Some(value)) {
            Ok(id) => Ok(id),
            Err(refusal) => Err(with_value(refusal)),
        }
    }

    fn has<R: Wait>(&mut self, _rt: &R, id: &Uuid) -> bool {
        self.slots.get(id).is_some()
    }

    fn lend<R: Wait>(&mut self, _rt: &R, id: &Uuid) -> Option<V> {
        match self.slots.get_mut(id) {
            Some(slot) => slot.take(),
            None => None,
        }
    }

    fn back<R: Wait>(&mut self, _rt: &R, id: &Uuid, value: V) {
        if let Some(slot) = self.slots.get_mut(id) {
            *slot = Some(value);
        }
    }

    fn remove<R: Wait>(&mut self, _rt: &R, id: &Uuid) -> Option<V> {
        match self.slots.remove(id) {
            Some(slot) => slot,
            None => None,
        }
    }
}
