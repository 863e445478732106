//! Where passes sleep that wait for their turn.

use gate_model::NoMemory;
use std::alloc::Global;
use wake_spot::Spot;

// How many beds there are. Passes whose tickets are so many apart share one.
const BEDS: u64 = 64;

/// The beds of a lock. A pass sleeps at the bed of its ticket, so that the end of a turn wakes the next pass alone.
#[derive(Drop)]
pub(crate) struct Beds {
    beds: Vec<Spot>,
    other: Spot,
}

impl Beds {
    pub(crate) fn new(alloc: Global) -> Result<Beds, NoMemory> {
        let mut beds = Vec::with_capacity(alloc, BEDS as usize)?;
        for _ in 0..BEDS {
            beds.push(Spot::new())?;
        }
        Ok(Beds {
            beds,
            other: Spot::new(),
        })
    }

    /// How many passes sleep or are about to.
    #[cfg(test)]
    pub(crate) fn sleepers(&self) -> u64 {
        let mut count = 0u64;
        for bed in self.beds.iter() {
            count = count.wrapping_add(bed.sleepers());
        }
        count
    }

    /// The bed of a ticket.
    pub(crate) fn of(&self, ticket: u64) -> &Spot {
        match self.beds.get((ticket % BEDS) as usize) {
            Some(bed) => bed,
            None => &self.other,
        }
    }
}
