ghost use Rattle.std.specs.Prelude.{◌≡◌};

use crate::AddRefusal;
use gate_outside::Dice;
use std::alloc::Global;
use std::collections::BTreeMap;
use uuid::{Builder, Uuid};

/// How many IDs are drawn for a value (this project's own rule).
const MOST_DRAWS: usize = 4;

/// Values under IDs. Contracts see it as the map `held`.
#[derive(Drop)]
pub struct IdTable<V> {
    pub(crate) values: BTreeMap<Uuid, V, Global>,
}

impl<V: Drop> IdTable<V> {
    ghost use Rattle.std.specs.Prelude.{◌≡◌, ◌<◌, ℕ, List, None, Some, IfOk, IfErr, IfSome, IfNone, OnErr, option_copied};
    ghost use Rattle.id_table.specs.Maps.{Changed, Same};
    ghost use Rattle.id_table.specs.Tables.{held, LendsValue};
    ghost use Rattle.std.specs.Borrow.{sem};
    ghost use Rattle.std.specs.Option.{option_copied_mut};

    /// A table that holds nothing.
    pub fn new(alloc: Global) -> IdTable<V>
        ensures { (id : List ℕ) → held result id ≡ None }
    {
        IdTable {
            values: BTreeMap::new(alloc),
        }
    }

    /// The value under the ID, if it is there.
    pub fn get(&self, id: &Uuid) -> Option<&V>
        ensures { option_copied result ≡ held self.now id.now }
    {
        self.values.get(id)
    }

    /// The value under the ID, if it is there, to be changed.
    pub fn get_mut(&mut self, id: &Uuid) -> Option<&mut V>
        ensures* writes_back { sem 𝓛 (LendsValue V.row self.entry id.now result) }
        ensures value { option_copied_mut result ≡ held self.old id.now }
    {
        self.values.get_mut(id)
    }

    /// Takes out the value under the ID, if it is there.
    pub fn remove(&mut self, id: &Uuid) -> Option<V>
        ensures value { result ≡ held self.old id.now }
        ensures changed { Changed id.now None (held self.old) (held self.new) }
    {
        self.values.remove(id)
    }
}

impl<V: Drop> IdTable<V> {
    ghost use Rattle.std.specs.Prelude.{◌≡◌, ◌<◌, IfOk, IfErr, IfSome, IfNone, OnErr, None, Some, IsSome};
    ghost use Rattle.gate_outside.specs.Helpers.{KeepsCounts};
    ghost use Rattle.id_table.specs.Draws.{AreNext, AreThere, Gone, IsFirstAbsent, nth_id};
    ghost use Rattle.id_table.specs.Maps.{Changed, Same};
    ghost use Rattle.id_table.specs.Refused.{IfConflict, value_of};
    ghost use Rattle.id_table.specs.Tables.{held};

    /// Adds the value under the first ID that is absent of up to four that are drawn. Conflict comes with the
    /// four drawn IDs where all were there. Refused, it leaves the table as it was.
    pub fn add<D: Dice>(&mut self, dice: &mut D, value: V) -> Result<Uuid, AddRefusal<V>>
        ensures absent { IfOk result (λ id. held self.old id ≡ None) }
        ensures added { IfOk result (λ id. Changed id (Some value) (held self.old) (held self.new)) }
        ensures first { IfOk result (λ id. IfSome (D.helper dice.old).draws (λ draws. IsFirstAbsent (held self.old) draws id)) }
        ensures same { OnErr result (Same (held self.old) (held self.new)) }
        ensures given_back { IfErr result (λ refusal. value_of refusal ≡ value) }
        ensures conflict { IfErr result (λ refusal. IfConflict refusal (AreThere (held self.old) 4)) }
        ensures drawn { IfErr result (λ refusal. IfConflict refusal (λ ids. IfSome (D.helper dice.old).draws (λ draws. AreNext draws 4 ids))) }
        ensures counts { KeepsCounts (D.helper dice.old) (D.helper dice.new) }
    {
        let mut drawn = [Uuid::nil(); MOST_DRAWS];
        match self.draw(dice, &mut drawn) {
            Some(id) => self.put(id, value),
            None => Err(AddRefusal::Conflict(value, drawn)),
        }
    }

    // Draws until an ID is absent, and keeps those that were there.
    fn draw<D: Dice>(&self, dice: &mut D, drawn: &mut [Uuid; MOST_DRAWS]) -> Option<Uuid>
        ensures absent { IfSome result (λ id. held self.now id ≡ None) }
        ensures first { IfSome result (λ id. IfSome (D.helper dice.old).draws (λ draws. IsFirstAbsent (held self.now) draws id)) }
        ensures conflict { IfNone result (AreThere (held self.now) 4 drawn.new) }
        ensures drawn { IfNone result (IfSome (D.helper dice.old).draws (λ draws. AreNext draws 4 drawn.new)) }
        ensures counts { KeepsCounts (D.helper dice.old) (D.helper dice.new) }
    {
        for n in 0..MOST_DRAWS {
            let id = Builder::from_random_bytes(dice.bytes()).into_uuid();
            if self.get(&id).is_none() {
                return Some(id);
            }
            drawn[n] = id;
        }
        None
    }

    // Puts the value under an ID that is absent.
    fn put(&mut self, id: Uuid, value: V) -> Result<Uuid, AddRefusal<V>>
        requires { held self.old id ≡ None }
        ensures id { IfOk result (λ given. given ≡ id) }
        ensures added { IfOk result (λ _. Changed id (Some value) (held self.old) (held self.new)) }
        ensures same { OnErr result (Same (held self.old) (held self.new)) }
        ensures given_back { IfErr result (λ refusal. refusal ≡ AddRefusal.NoMemory value) }
    {
        match self.values.insert(id, value) {
            Ok(_) => Ok(id),
            Err(refused) => {
                let (_, value) = refused.value;
                Err(AddRefusal::NoMemory(value))
            }
        }
    }
}
