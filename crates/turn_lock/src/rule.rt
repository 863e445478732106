//! The rule of the lock's table.
use crate::kept::Kept;
use crate::view::View;
use atomic_table::TableRule;
use ghost_list::GhostList;
use std::marker::PhantomData;

/// The rule, for whatever the lock keeps.
pub struct LockRule<V> {
    kept: PhantomData<V>,
}

impl<V: Kept> TableRule<Option<V>, View<V::Entry>, GhostList<V::Entry>> for LockRule<V> {
    ghost use Rattle.turn_lock.specs.Rule.{Ruled};
    ghost use Rattle.turn_lock.specs.Views.{beginning};

    ghost holds = { λ _. Ruled V.stands V.mark };

    ghost first = { λ opening. beginning V.mark opening.items };
}
