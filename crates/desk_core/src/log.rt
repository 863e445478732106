ghost use Rattle.std.specs.Prelude.{◌≡◌, ◌∷◌, ◌<◌, ◌-◌, ◌^◌, [], List, nat_le};
ghost use Rattle.gate_model.specs.declared.entry.Entry.TheVariants.{Feed, Size, Start, Write};
ghost use Rattle.gate_model.specs.session.Calls.{AreBytes};
ghost use Rattle.desk_core.specs.Log.{with_entry};

use gate_model::{Act, Entry, Instrs, Setup};
use ghost_list::{GhostList, Lists};
use std::marker::{Brand, Model};

/// The history of the session, which no memory holds, and the number of its entries. Contracts see a
/// `LogState`.
#[derive(Drop)]
pub struct Log {
    past: GhostList<Entry>,
    entries: u64,
}

impl Model for Log {
    ghost use Rattle.desk_core.specs.Log.{LogState};

    ghost Value = { LogState };

    ghost view = { λ l. record { past = l.past.items; entries = l.entries } };
}

impl Log {
    /// The opening alone.
    pub fn opened(setup: &Setup, stamp: u64, frame: &Instrs) -> Log
        ensures { result ≡ record { past = Start setup.now.cols setup.now.rows setup.now.mode setup.now.term setup.now.faces setup.now.entries stamp frame.now ∷ []; entries = 1 } }
    {
        Log {
            past: named::<Brand, _>(&(setup, stamp, frame)),
            entries: 1,
        }
    }

    /// The number of entries.
    pub fn entries(&self) -> u64
        ensures { result ≡ self.now.entries }
    {
        self.entries
    }

    /// Whether there are so many entries, or more.
    pub fn is_full(&self, most: u64) -> bool
        ensures { result ≡ nat_le most self.now.entries }
    {
        self.entries >= most
    }

    /// This entry more.
    pub fn add(&mut self, entry: &Entry)
        requires { self.old.entries < 2 ^ 64 - 1 }
        ensures { self.new ≡ with_entry self.old entry.now }
    {
        self.past = named::<Brand, _>(&(&self.past, entry));
        self.entries += 1;
    }

    /// A Feed more, of bytes.
    pub fn feed(&mut self, bytes: &[u8], stamp: u64, frame: &Instrs)
        requires { self.old.entries < 2 ^ 64 - 1 }
        ensures adds { self.new ≡ with_entry self.old (Feed bytes.now stamp frame.now) }
        ensures octets { AreBytes bytes.now }
    {
        self.past = named::<Brand, _>(&(&self.past, bytes, stamp, frame));
        self.entries += 1;
    }

    /// A Size more.
    pub fn size(&mut self, viewer: u32, cols: u16, rows: u16, stamp: u64, frame: &Instrs)
        requires { self.old.entries < 2 ^ 64 - 1 }
        ensures { self.new ≡ with_entry self.old (Size viewer cols rows stamp frame.now) }
    {
        self.past = named::<Brand, _>(&(&self.past, viewer, cols, rows, stamp, frame));
        self.entries += 1;
    }

    /// A Write more.
    pub fn write(&mut self, viewer: u32, acts: &[Act])
        requires { self.old.entries < 2 ^ 64 - 1 }
        ensures { self.new ≡ with_entry self.old (Write viewer acts.now) }
    {
        self.past = named::<Brand, _>(&(&self.past, viewer, acts));
        self.entries += 1;
    }
}

// The list that the parameter names, by what the caller's proof is told.
fn named<L: Lists<Entry>, A>(told: &A) -> GhostList<Entry>
    ensures { result.items ≡ L.list }
{
    let _ = told;
    GhostList::of::<L>()
}
