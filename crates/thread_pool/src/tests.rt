//! Each job that is taken is done once, and nobody waits longer than it is to, in the runs that these make.

use crate::Pool;
use crate::waiting::{Seat, Waiting};
use std::hint::spin_loop;
use std::sync::atomic::AtomicU64;
use std::sync::atomic::Ordering::SeqCst;
use std::sync::{Arc, Wait};
use std::test::Fail;
use std::thread::join_mut;
use std::time::Duration;

// How many jobs are given.
const JOBS: u64 = 20_000;

// The job behind which a thread asks for no other one.
const LAST: u64 = 0;

// What was done: how many jobs, and the sum of their numbers.
#[derive(Drop)]
struct Done {
    count: AtomicU64,
    sum: AtomicU64,
}

impl Done {
    fn new() -> Done {
        Done {
            count: AtomicU64::new(0),
            sum: AtomicU64::new(0),
        }
    }

    fn add(&self, job: u64) {
        self.count.fetch_add(1, SeqCst);
        self.sum.fetch_add(job, SeqCst);
    }

    fn told(&self) -> (u64, u64) {
        (self.count.load(SeqCst), self.sum.load(SeqCst))
    }
}

// Gives the job until it is taken.
fn give<R: Wait>(rt: &R, pool: &Pool<u64>, job: u64) {
    for _ in rt.forever() {
        if pool.give(rt, job).is_ok() {
            return;
        }
        spin_loop();
    }
}

// Gives each job, and then to each of two threads its last.
fn give_all<R: Wait>(rt: &R, pool: &Pool<u64>) {
    for job in 1..=JOBS {
        give(rt, pool, job);
    }
    give(rt, pool, LAST);
    give(rt, pool, LAST);
}

// Does what it is given, up to the last job.
fn work<R: Wait>(rt: &R, pool: &Pool<u64>, done: &Done) {
    for _ in rt.forever() {
        match pool.next(rt) {
            Some(LAST) => return,
            Some(job) => done.add(job),
            None => {}
        }
    }
}

// Gives each job once, and then tells that there is no further one. How many were taken.
fn offer_all<R: Wait>(rt: &R, pool: &Pool<u64>, over: &AtomicU64) -> u64 {
    let mut taken = 0u64;
    for job in 1..=JOBS {
        if pool.give(rt, job).is_ok() {
            taken = taken.wrapping_add(1);
        }
        spin_loop();
    }
    over.store(1, SeqCst);
    taken
}

// Does what it is given, until there is no further job.
fn work_on<R: Wait>(rt: &R, pool: &Pool<u64>, over: &AtomicU64, done: &Done) {
    for _ in rt.forever() {
        let is_over = over.load(SeqCst) == 1;
        match pool.next(rt) {
            Some(job) => done.add(job),
            None if is_over => return,
            None => {}
        }
    }
}

// Two threads wait so long that each job wakes one.
#[test]
fn each_job_is_done_once(rt: HostRuntime) -> Result<(), Fail> {
    let pool = Pool::new(rt.alloc(), Duration::from_secs(3600))?;
    let done = Done::new();
    let (handle, shared, told) = (&rt, &pool, &done);
    join_mut(
        &rt,
        &mut || give_all(handle, shared),
        &mut || {
            join_mut(
                handle,
                &mut || work(handle, shared, told),
                &mut || work(handle, shared, told),
            );
        },
    );
    assert_eq!(rt; done.told(), (JOBS, JOBS * (JOBS + 1) / 2));
    Ok(())
}

// A thread that leaves again and again does each job that was taken from its giver.
#[test]
fn a_job_given_to_who_is_about_to_leave_is_done(rt: HostRuntime) -> Result<(), Fail> {
    let pool = Pool::new(rt.alloc(), Duration::from_micros(1))?;
    let (over, done) = (AtomicU64::new(0), Done::new());
    let (handle, shared, end, told) = (&rt, &pool, &over, &done);
    let mut taken = 0u64;
    join_mut(
        &rt,
        &mut || taken = offer_all(handle, shared, end),
        &mut || work_on(handle, shared, end, told),
    );
    assert_eq!(rt; done.told().0, taken);
    Ok(())
}

#[test]
fn a_job_comes_back_where_nobody_waits(rt: HostRuntime) -> Result<(), Fail> {
    let pool = Pool::new(rt.alloc(), Duration::from_millis(1))?;
    let before = pool.give(&rt, 7u64);
    let waited = pool.next(&rt);
    let behind = pool.another()?.give(&rt, 8u64);
    assert_eq!(rt; (before, waited, behind), (Err(7), None, Err(8)));
    Ok(())
}

#[test]
fn at_most_64_wait_and_the_last_is_called_first(rt: HostRuntime) -> Result<(), Fail> {
    let mut waiting: Waiting<u64> = Waiting::new(rt.alloc())?;
    let mut came = 0u64;
    for number in 0..70u64 {
        if waiting.come(Arc::new(rt.alloc(), Seat::new(number))?) {
            came = came.wrapping_add(1);
        }
    }
    let left = [waiting.leave(63), waiting.leave(63), waiting.leave(69)];
    let called = waiting.call().map(|seat| seat.number);
    assert_eq!(rt; (came, left, called), (64, [true, false, false], Some(62)));
    Ok(())
}
