//! A bell that threads sleep on.

use gate_model::NoMemory;
use gate_outside::Bell;
use std::alloc::Global;
use std::sync::atomic::AtomicU64;
use std::sync::atomic::Ordering::SeqCst;
use std::sync::{Arc, Wait};
use std::time::Duration;
use wake_spot::{Spot, Spots};

/// A bell that threads sleep on. Each remembers the rings that it has answered, so that a ring between a look
/// at the session and a wait isn't missed (this project's own; tests show it).
#[derive(Drop)]
pub struct ParkBell {
    rings: Arc<Spot, Global>,
    answered: AtomicU64,
}

impl ParkBell {
    /// A bell that wasn't rung.
    pub fn new(alloc: Global) -> Result<ParkBell, NoMemory> {
        Ok(ParkBell {
            rings: Arc::new(alloc, Spot::new())?,
            answered: AtomicU64::new(0),
        })
    }
}

impl Bell for ParkBell {
    fn ring(&self) {
        self.rings.ring();
    }

    fn wait<R: Wait>(&self, rt: &R) {
        for _ in rt.forever() {
            let rings = self.rings.rings();
            if self.answered.swap(rings, SeqCst) != rings {
                return;
            }
            self.rings.wait(rt, rings);
        }
    }

    fn another(&self, _alloc: Global) -> Result<ParkBell, NoMemory> {
        Ok(ParkBell {
            rings: Arc::try_clone(&self.rings)?,
            // What was rung so far is old to whoever begins to look now.
            answered: AtomicU64::new(self.rings.rings()),
        })
    }

    fn ring_at(&self, spot: &Spot) {
        spot.ring();
    }

    fn ring_all(&self, spots: &Spots) {
        spots.ring_all();
    }

    fn wait_at<R: Wait>(&self, rt: &R, spot: &Spot, seen: u64) {
        spot.wait(rt, seen);
    }

    fn wait_at_most<R: Wait>(&self, rt: &R, spot: &Spot, seen: u64, most: Duration) -> bool {
        spot.wait_at_most(rt, seen, most)
    }
}
