ghost use Rattle.std.specs.Prelude.{◌≡◌, ◌+◌, ◌≤◌, [], ◌++◌, length};

use std::marker::Model;

/// The bytes that a press sends, at most 8, which contracts see as a list.
#[derive(Drop)]
pub struct KeyBytes {
    held: [u8; 8],
    count: usize,
}

impl Model for KeyBytes {
    ghost use Rattle.std.specs.Prelude.{ℕ, ◌≤◌, List, take};

    ghost Value = { List ℕ };

    ghost view = { λ s. take s.count s.held };

    ghost invariant = { λ s. s.count ≤ 8 };
}

impl KeyBytes {
    // No bytes.
    pub(crate) fn new() -> KeyBytes
        ensures { result ≡ [] }
    {
        KeyBytes {
            held: [0; 8],
            count: 0,
        }
    }

    // Appends the bytes.
    pub(crate) fn append(&mut self, bytes: &[u8])
        requires { length self.old + length bytes.now ≤ 8 }
        ensures { self.new ≡ self.old ++ bytes.now }
    {
        let end = self.count + bytes.len();
        self.held[self.count..end].copy_from_slice(bytes);
        self.count = end;
    }

    /// The bytes, lent; at most 8.
    pub fn as_slice(&self) -> &[u8]
        ensures exact { result.now ≡ self.now }
        ensures few { length result.now ≤ 8 }
    {
        &self.held[..self.count]
    }
}
