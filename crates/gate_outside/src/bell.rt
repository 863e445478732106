use gate_model::NoMemory;
use std::alloc::Global;
use std::sync::Wait;
use std::time::Duration;
use wake_spot::{Spot, Spots};

/// A bell that is rung where a session changed, and that those who found nothing new wait for (this
/// project's own). Nothing is claimed of what a wait waits for: it may return at any time.
///
/// Where a session has spots, a change rings at those of whom it concerns, by `ring_at` and `ring_all`, and each waits at
/// its own, by `wait_at`. A bell without more does at a spot what it does anywhere.
pub trait Bell: Sized + Drop {
    /// Rings.
    fn ring(&self);

    /// Waits until it is rung, or not so long.
    fn wait<R: Wait>(&self, rt: &R);

    /// A bell that rings and waits with this one.
    fn another(&self, alloc: Global) -> Result<Self, NoMemory>;

    /// Rings for those who wait at the spot.
    fn ring_at(&self, spot: &Spot) {
        let _ = spot;
        self.ring();
    }

    /// Rings for all who wait at a spot of the session.
    fn ring_all(&self, spots: &Spots) {
        let _ = spots;
        self.ring();
    }

    /// Waits until the spot is rung more than `seen` times, or not so long. `seen` was read before the look that found
    /// nothing new, so that a ring behind it isn't missed.
    fn wait_at<R: Wait>(&self, rt: &R, spot: &Spot, seen: u64) {
        let _ = spot;
        let _ = seen;
        self.wait(rt);
    }

    /// The same, but for `most` at most. It answers whether the spot was rung; a bell without more doesn't wait.
    fn wait_at_most<R: Wait>(&self, rt: &R, spot: &Spot, seen: u64, most: Duration) -> bool {
        let _ = rt;
        let _ = most;
        spot.rings() != seen
    }
}
