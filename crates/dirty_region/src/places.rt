ghost use Rattle.std.specs.Prelude.{◌≡◌};

use std::marker::Model;

/// Places of a screen; contracts see the list.
#[derive(Drop)]
pub struct Changes {
    pub(crate) held: Vec<(u16, u16)>,
}

impl Model for Changes {
    ghost use Rattle.std.specs.Prelude.{ℕ, List};

    ghost Value = { List (ℕ × ℕ) };

    ghost view = { λ c. c.held.items };
}

impl Changes {
    /// The places, lent, each as its column and its row, counted from 0.
    pub fn as_slice(&self) -> &[(u16, u16)]
        ensures { result.now ≡ self.now }
    {
        &self.held
    }
}
