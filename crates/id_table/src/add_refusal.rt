ghost use Rattle.std.specs.Prelude.{◌≡◌, Some, IsSome, List, ℕ};
ghost use Rattle.id_table.specs.Refused.{HasDrawn, value_of};

use uuid::Uuid;

/// Why a value wasn't added; the value comes back.
#[derive(Drop)]
pub enum AddRefusal<V> {
    /// The four IDs that were drawn were all there.
    Conflict(V, [Uuid; 4]),
    /// Want of memory.
    NoMemory(V),
}

/// The same refusal of a value that is there.
pub(crate) fn with_value<V: Drop>(refusal: AddRefusal<Option<V>>) -> AddRefusal<V>
    requires { IsSome (value_of refusal) }
    ensures value { value_of refusal ≡ Some (value_of result) }
    ensures drawn { HasDrawn refusal result }
{
    match refusal {
        AddRefusal::Conflict(value, drawn) => AddRefusal::Conflict(value.unwrap(), drawn),
        AddRefusal::NoMemory(value) => AddRefusal::NoMemory(value.unwrap()),
    }
}
