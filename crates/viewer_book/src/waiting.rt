ghost use Rattle.std.specs.Prelude.{◌≡◌, ◌<◌, ◌≤◌, ◌∷◌, ◌++◌, [], filter, length, nat_lt, IfOk};
ghost use Rattle.viewer_book.specs.Room.{room};

use gate_model::NoMemory;
use std::alloc::Global;
use std::marker::Model;

// Where 64 wait, a viewer may be given 256 frames more, and then none before 64 wait again.
const ROOM: usize = 321;

/// The stamps that a viewer was given and hasn't acknowledged, oldest first, which contracts see as a
/// list. It has room for 321 from the first on, so that no later call takes memory.
#[derive(Drop)]
pub(crate) struct Waiting {
    stamps: Vec<u64>,
}

impl Model for Waiting {
    ghost use Rattle.std.specs.Prelude.{ℕ, List, ◌≤◌, length, vec_capacity};
    ghost use Rattle.viewer_book.specs.Room.{room};

    ghost Value = { List ℕ };

    ghost view = { λ w. w.stamps.items };

    ghost invariant = { λ w. (length w.stamps.items ≤ room) × (room ≤ vec_capacity w.stamps) };
}

impl Waiting {
    /// None waits. It is refused for want of memory alone.
    pub(crate) fn none(alloc: Global) -> Result<Waiting, NoMemory>
        ensures { IfOk result (λ w. w ≡ []) }
    {
        let stamps = Vec::with_capacity(alloc, ROOM)?;
        Ok(Waiting { stamps })
    }

    /// How many wait, at most 321.
    pub(crate) fn len(&self) -> usize
        ensures counts { result ≡ length self.now }
        ensures few { result ≤ room }
    {
        self.stamps.len()
    }

    /// One more waits, where fewer than 321 do.
    pub(crate) fn add(&mut self, stamp: u64)
        requires { length self.old < room }
        ensures { self.new ≡ self.old ++ stamp ∷ [] }
    {
        self.stamps.push(stamp).unwrap();
    }

    /// Those up to the stamp wait no more.
    pub(crate) fn end_up_to(&mut self, stamp: u64)
        ensures { self.new ≡ filter (λ s. nat_lt stamp s) self.old }
    {
        self.stamps.retain(|waiting| *waiting > stamp);
    }
}
