ghost use Rattle.std.specs.Prelude.{◌≡◌, List};
ghost use Rattle.gate_model.specs.declared.act.Act.{Act};

use crate::Act;
use std::marker::Model;

/// What a viewer's instructions ask for, in order; contracts see the list.
#[derive(Drop)]
pub struct Acts {
    held: Vec<Act>,
}

impl Model for Acts {
    ghost Value = { List Act };

    ghost view = { λ s. s.held.items };
}

impl Acts {
    /// The list of the vector's items.
    pub fn of(value: Vec<Act>) -> Acts
        ensures { result ≡ value.items }
    {
        Acts { held: value }
    }

    /// The vector that holds the list. It takes no memory.
    pub fn into_inner(self) -> Vec<Act>
        ensures { result.items ≡ self }
    {
        self.held
    }

    /// The items, lent.
    pub fn as_slice(&self) -> &[Act]
        ensures { result.now ≡ self.now }
    {
        &self.held
    }
}
