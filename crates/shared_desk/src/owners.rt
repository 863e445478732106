//! Owners of a session's lock.

ghost use Rattle.std.specs.Prelude.{◌≡◌, IfOk};

use crate::held::Held;
use gate_model::NoMemory;
use std::alloc::Global;
use std::marker::Model;
use std::sync::Arc;
use turn_lock::TurnLock;

/// Two more owners of a session's lock, for two passes that are to come. Contracts see the session.
#[derive(Drop)]
pub struct Owners {
    pub(crate) first: Arc<TurnLock<Held>, Global>,
    pub(crate) second: Arc<TurnLock<Held>, Global>,
}

impl Model for Owners {
    ghost use Rattle.std.specs.Arc.{arc_value};
    ghost use Rattle.std.specs.Prelude.{◌≡◌};
    ghost use Rattle.atomic_table.specs.Seated.{TableId};
    ghost use Rattle.turn_lock.specs.Passes.{name_of};

    ghost Value = { TableId };

    ghost view = { λ o. name_of (arc_value o.first) };

    ghost invariant = { λ o. name_of (arc_value o.second) ≡ name_of (arc_value o.first) };
}

impl Owners {
    ghost use Rattle.std.specs.Arc.{arc_value};
    ghost use Rattle.turn_lock.specs.Passes.{name_of};

    /// Two more owners of this lock.
    pub(crate) fn of(lock: &Arc<TurnLock<Held>, Global>) -> Result<Owners, NoMemory>
        ensures { IfOk result (λ owners. owners ≡ name_of (arc_value lock.now)) }
    {
        let first = Arc::try_clone(lock)?;
        let second = Arc::try_clone(lock)?;
        Ok(Owners { first, second })
    }
}
