ghost use Rattle.std.specs.Prelude.{◌≡◌, ◌<◌, ◌≤◌, ◌+◌, ◌*◌, length, slice_get, Some};

use crate::Key;
use std::marker::Model;

/// What a screen shows: a key for each place, row by row. Contracts see the columns, the rows and
/// the list of keys.
#[derive(Drop)]
pub struct Shown {
    columns: u16,
    lines: u16,
    held: Vec<Key>,
}

impl Model for Shown {
    ghost use Rattle.std.specs.Prelude.{◌≡◌, ◌<◌, ◌*◌, length};
    ghost use Rattle.gate_model.specs.picture.KeyGrid.{KeyGrid};

    ghost Value = { KeyGrid };

    ghost view = { λ s. record { cols = s.columns; rows = s.lines; keys = s.held.items } };

    ghost invariant = { λ s. length s.held.items ≡ s.lines * s.columns };
}

impl Shown {
    /// A screen of `cols * rows` keys, row by row.
    pub fn new(cols: u16, rows: u16, keys: Vec<Key>) -> Shown
        requires { length keys.items ≡ rows * cols }
        ensures { result ≡ record { cols = cols; rows = rows; keys = keys.items } }
    {
        Shown {
            columns: cols,
            lines: rows,
            held: keys,
        }
    }

    /// The columns.
    pub fn cols(&self) -> u16
        ensures { result ≡ self.now.cols }
    {
        self.columns
    }

    /// The rows.
    pub fn rows(&self) -> u16
        ensures { result ≡ self.now.rows }
    {
        self.lines
    }

    /// The keys, row by row, lent: as many as there are places.
    pub fn as_slice(&self) -> &[Key]
        ensures keys { result.now ≡ self.now.keys }
        ensures full { length self.now.keys ≡ self.now.rows * self.now.cols }
    {
        &self.held
    }

    /// The key at column `x` of row `y`, each counted from 0.
    pub fn key(&self, x: u16, y: u16) -> Key
        requires column { x < self.now.cols }
        requires row { y < self.now.rows }
        ensures { slice_get self.now.keys (y * self.now.cols + x) ≡ Some result }
    {
        self.held[y as usize * self.columns as usize + x as usize]
    }
}
