//! One spot.

ghost use Rattle.std.specs.Prelude.{◌≡◌, ◌%◌};

use std::sync::Wait;
use std::sync::atomic::AtomicU64;
use std::sync::atomic::Ordering::SeqCst;
use std::time::Duration;

/// A spot that threads sleep at until it is rung (this project's own). Whoever is to sleep reads the number of rings
/// first, then looks whether there is news, and then sleeps on that number: a ring in between isn't missed. A ring where
/// nobody sleeps calls no kernel.
#[derive(Drop)]
pub struct Spot {
    rings: AtomicU64,
    // A word of its own: a sleep compares the low 32 bits of the rings alone, and a count beside them would be reached by
    // their carry.
    sleepers: AtomicU64,
}

impl Spot {
    /// A spot that wasn't rung.
    pub fn new() -> Spot {
        Spot {
            rings: AtomicU64::new(0),
            sleepers: AtomicU64::new(0),
        }
    }

    /// How often it was rung, up to 2^64 - 1 and then from 0 on.
    pub fn rings(&self) -> u64 {
        self.rings.load(SeqCst)
    }

    /// How many threads sleep here or are about to.
    pub fn sleepers(&self) -> u64 {
        self.sleepers.load(SeqCst)
    }

    /// Rings, and wakes those that sleep.
    pub fn ring(&self) {
        self.rings.fetch_add(1, SeqCst);
        // One that counts itself a sleeper later than this look finds another number of rings, and doesn't fall asleep.
        if self.sleepers.load(SeqCst) > 0 {
            self.rings.wake_all();
        }
    }

    /// Sleeps until the number of rings is another than `seen`, or not so long. After exactly a multiple of 2^32 rings
    /// the number counts as the same.
    pub fn wait<R: Wait>(&self, rt: &R, seen: u64) {
        self.sleepers.fetch_add(1, SeqCst);
        self.rings.park(rt, low(seen));
        self.sleepers.fetch_sub(1, SeqCst);
    }

    /// The same, but for `most` at most. It answers whether it was rung.
    pub fn wait_at_most<R: Wait>(&self, rt: &R, seen: u64, most: Duration) -> bool {
        self.sleepers.fetch_add(1, SeqCst);
        self.rings.park_timeout(rt, low(seen), most);
        self.sleepers.fetch_sub(1, SeqCst);
        self.rings() != seen
    }
}

// What a sleep compares of a number of rings: its low 32 bits (futex(2)).
fn low(rings: u64) -> u32
    ensures { result ≡ rings % 4294967296 }
{
    (rings % 0x1_0000_0000) as u32
}
