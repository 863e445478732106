ghost use Rattle.std.specs.Prelude.{◌≡◌, List, ℕ};

use std::marker::Model;

/// Bytes, which contracts see as a list of numbers below 256.
#[derive(Drop)]
pub struct Bytes {
    held: Vec<u8>,
}

impl Model for Bytes {
    ghost Value = { List ℕ };

    ghost view = { λ s. s.held.items };
}

impl Bytes {
    /// The list of the vector's items.
    pub fn of(value: Vec<u8>) -> Bytes
        ensures { result ≡ value.items }
    {
        Bytes { held: value }
    }

    /// The vector that holds the list. It takes no memory.
    pub fn into_inner(self) -> Vec<u8>
        ensures { result.items ≡ self }
    {
        self.held
    }

    /// The items, lent.
    pub fn as_slice(&self) -> &[u8]
        ensures { result.now ≡ self.now }
    {
        &self.held
    }
}
