//! A thread that serves connections.

use crate::jobs::ConnectionJob;
use gate_outside::{Bell, Helper, Sink, Source};
use log::Log;
use std::sync::Wait;
use std::thread::Threads;
use thread_pool::Pool;

/// What a thread does: it serves a connection and then, where it has a pool, each that it is given there. Nothing is
/// said of it: `connection` says what is read and written, a thread hands nothing back, and a pool doesn't tell whom it
/// calls.
#[derive(Drop)]
pub(crate) struct Worker<S, K, H, B, L> {
    pub(crate) job: ConnectionJob<S, K, H, B, L>,
    pub(crate) pool: Option<Pool<ConnectionJob<S, K, H, B, L>>>,
}

impl<S, K, H, B, L> Worker<S, K, H, B, L>
where
    S: Source + Send + 'static,
    K: Sink + Send + 'static,
    H: Helper,
    B: Bell + Send + 'static,
    L: Log + Copy + Drop,
{
    /// Serves until there is no further connection for it.
    pub(crate) fn run<R>(self, rt: &R)
    where
        R: Threads + Wait + Copy + Send + Sync + 'static,
    {
        let Worker { job, pool } = self;
        job.run(rt);
        let Some(pool) = pool else {
            return;
        };
        for _ in rt.forever() {
            let Some(job) = pool.next(rt) else {
                return;
            };
            job.run(rt);
        }
    }
}
