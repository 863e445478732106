//! The pool.

ghost use Rattle.std.specs.Prelude.{◌≡◌, IfErr};

use crate::waiting::{Seat, Waiting};
use std::alloc::{AllocError, Global};
use std::sync::atomic::AtomicU64;
use std::sync::atomic::Ordering::SeqCst;
use std::sync::{Arc, Mutex, Wait};
use std::time::Duration;

#[derive(Drop)]
struct Shared<J> {
    waiting: Mutex<Waiting<J>>,
    // How many threads ever asked for a job.
    asked: AtomicU64,
}

/// Threads that wait for jobs, up to 64 and each for so long at most (this project's own). The last to come is given the
/// next job, so that those that aren't needed leave.
#[derive(Drop)]
pub struct Pool<J> {
    alloc: Global,
    patience: Duration,
    shared: Arc<Shared<J>, Global>,
}

impl<J: Drop> Pool<J> {
    /// A pool where nobody waits, and where each is to wait for so long.
    pub fn new(alloc: Global, patience: Duration) -> Result<Pool<J>, AllocError> {
        let shared = Shared {
            waiting: Mutex::new(Waiting::new(alloc)?),
            asked: AtomicU64::new(0),
        };
        Ok(Pool {
            alloc,
            patience,
            shared: Arc::new(alloc, shared)?,
        })
    }

    /// The same pool once more, for another thread.
    pub fn another(&self) -> Result<Pool<J>, AllocError> {
        Ok(Pool {
            alloc: self.alloc,
            patience: self.patience,
            shared: Arc::try_clone(&self.shared)?,
        })
    }

    /// Gives the job to a thread that waits for one. It comes back where none does.
    pub fn give<R: Wait>(&self, rt: &R, job: J) -> Result<(), J>
        ensures given_back { IfErr result (λ j. j ≡ job) }
    {
        let called = self.shared.waiting.lock(rt).call();
        let Some(seat) = called else {
            return Err(job);
        };
        *seat.job.lock(rt) = Some(job);
        seat.spot.ring();
        Ok(())
    }

    /// The next job of a thread that has done one. None where none came in time, where 64 threads wait already, and for
    /// want of memory.
    pub fn next<R: Wait>(&self, rt: &R) -> Option<J> {
        let seat = self.sit(rt)?;
        let rung = seat.spot.wait_at_most(rt, 0, self.patience);
        if !rung && self.shared.waiting.lock(rt).leave(seat.number) {
            return None;
        }
        // The seat was called, so its job is there or comes at once.
        for _ in rt.forever() {
            let rings = seat.spot.rings();
            let job = seat.job.lock(rt).take();
            if job.is_some() {
                return job;
            }
            seat.spot.wait(rt, rings);
        }
        unreachable!()
    }

    // The seat of a thread that waits from now on.
    fn sit<R: Wait>(&self, rt: &R) -> Option<Arc<Seat<J>, Global>> {
        let number = self.shared.asked.fetch_add(1, SeqCst);
        let seat = Arc::new(self.alloc, Seat::new(number)).ok()?;
        let same = Arc::try_clone(&seat).ok()?;
        let is_there = self.shared.waiting.lock(rt).come(same);
        is_there.then_some(seat)
    }
}
