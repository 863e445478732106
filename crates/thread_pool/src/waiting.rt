//! Who waits.

ghost use Rattle.std.specs.Prelude.{◌≡◌, ◌++◌, ◌∷◌, [], ◌≤◌, ◌+◌, IsTrue, IsFalse, option_to_list, vec_len};

use std::alloc::{AllocError, Global};
use std::sync::{Arc, Mutex};
use wake_spot::Spot;

// How many threads wait at most.
const MOST: usize = 64;

/// Where one thread waits: its number among all that ever waited, the job that it is given, and where it sleeps.
#[derive(Drop)]
pub(crate) struct Seat<J> {
    pub(crate) number: u64,
    pub(crate) job: Mutex<Option<J>>,
    pub(crate) spot: Spot,
}

impl<J: Drop> Seat<J> {
    /// The seat of a thread that is given no job yet.
    pub(crate) fn new(number: u64) -> Seat<J> {
        Seat {
            number,
            job: Mutex::new(None),
            spot: Spot::new(),
        }
    }
}

/// The seats of the threads that wait and are called for no job yet, the last to come last.
#[derive(Drop)]
pub(crate) struct Waiting<J> {
    seats: Vec<Arc<Seat<J>, Global>>,
    ghost few: { vec_len seats ≤ 64 },
}

impl<J: Drop> Waiting<J> {
    /// Nobody waits.
    pub(crate) fn new(alloc: Global) -> Result<Waiting<J>, AllocError> {
        let seats = Vec::with_capacity(alloc, MOST)?;
        Ok(Waiting { seats })
    }

    /// One more waits, where not so many do already.
    pub(crate) fn come(&mut self, seat: Arc<Seat<J>, Global>) -> bool
        ensures there { IsTrue result → self.new.seats.items ≡ self.old.seats.items ++ seat ∷ [] }
        ensures same { IsFalse result → self.new.seats.items ≡ self.old.seats.items }
    {
        if self.seats.len() >= MOST {
            return false;
        }
        self.seats.push(seat).is_ok()
    }

    /// Calls the last to come, which waits no longer.
    pub(crate) fn call(&mut self) -> Option<Arc<Seat<J>, Global>>
        ensures { self.old.seats.items ≡ self.new.seats.items ++ option_to_list result }
    {
        self.seats.pop()
    }

    /// The thread with this number waits no longer. False where it was called before.
    pub(crate) fn leave(&mut self, number: u64) -> bool
        ensures one { IsTrue result → vec_len self.new.seats + 1 ≡ vec_len self.old.seats }
        ensures same { IsFalse result → self.new.seats.items ≡ self.old.seats.items }
    {
        match self.seats.iter().position(|seat| seat.number == number) {
            Some(place) => {
                self.seats.remove(place);
                true
            }
            None => false,
        }
    }
}
