//! No wake is missed, in the runs that these make.

use crate::{Spot, Spots};
use std::hint::spin_loop;
use std::sync::Wait;
use std::sync::atomic::AtomicU64;
use std::sync::atomic::Ordering::SeqCst;
use std::test::Fail;
use std::thread::join_mut;
use std::time::Duration;

// How often each of two threads answers the other.
const ROUNDS: u64 = 20_000;

// Waits at the spot until the count leaves this remainder by 2.
fn wait_until<R: Wait>(rt: &R, count: &AtomicU64, odd: u64, spot: &Spot) {
    for _ in rt.forever() {
        let rings = spot.rings();
        if count.load(SeqCst) % 2 == odd {
            return;
        }
        spot.wait(rt, rings);
    }
    unreachable!()
}

// Sleeps until the spot was rung more than `seen` times.
fn sleep<R: Wait>(rt: &R, spot: &Spot, seen: u64) {
    for _ in rt.forever() {
        if spot.rings() != seen {
            return;
        }
        spot.wait(rt, seen);
    }
    unreachable!()
}

// Waits until so many threads sleep at the spot.
fn wait_for_sleepers<R: Wait>(rt: &R, spot: &Spot, wanted: u64) {
    for _ in rt.forever() {
        if spot.sleepers() == wanted {
            return;
        }
        spin_loop();
    }
    unreachable!()
}

// Takes each count that is even, or odd, one further, and rings for who waits for the other ones.
fn answer<R: Wait>(rt: &R, count: &AtomicU64, odd: u64, own: &Spot, other: &Spot) {
    for _round in 0..ROUNDS {
        wait_until(rt, count, odd, own);
        count.fetch_add(1, SeqCst);
        other.ring();
    }
}

// Each waits for the other's ring, so that one missed would stop both.
#[test]
fn two_threads_answer_each_other(rt: HostRuntime) -> Result<(), Fail> {
    let (even, odd, count) = (Spot::new(), Spot::new(), AtomicU64::new(0));
    let (handle, ours, theirs, shared) = (&rt, &even, &odd, &count);
    join_mut(
        &rt,
        &mut || answer(handle, shared, 0, ours, theirs),
        &mut || answer(handle, shared, 1, theirs, ours),
    );
    assert_eq!(rt; count.load(SeqCst), 2 * ROUNDS);
    assert_eq!(rt; (even.sleepers(), odd.sleepers()), (0, 0));
    Ok(())
}

#[test]
fn a_ring_between_a_look_and_a_wait_is_not_missed(rt: HostRuntime) -> Result<(), Fail> {
    let spot = Spot::new();
    let rings = spot.rings();
    spot.ring();
    spot.wait(&rt, rings);
    assert_eq!(rt; (rings, spot.rings()), (0, 1));
    Ok(())
}

// One thread sleeps where all wait for frames and then, held, at its own spot; the other rings for each once it sleeps.
#[test]
fn each_spot_wakes_who_sleeps_there(rt: HostRuntime) -> Result<(), Fail> {
    let spots = Spots::new(rt.alloc())?;
    let (handle, shared) = (&rt, &spots);
    join_mut(
        &rt,
        &mut || {
            let rings = shared.rings(65);
            sleep(handle, shared.frames(), rings.frames());
            sleep(handle, shared.held(65), rings.held());
            sleep(handle, shared.sending(), 0);
        },
        &mut || {
            wait_for_sleepers(handle, shared.frames(), 1);
            shared.frames().ring();
            wait_for_sleepers(handle, shared.held(1), 1);
            shared.held(1).ring();
            wait_for_sleepers(handle, shared.sending(), 1);
            shared.ring_all();
        },
    );
    let rings = spots.rings(1);
    assert_eq!(rt;
        (rings.frames(), rings.held(), spots.sending().rings()),
        (2, 2, 1)
    );
    assert_eq!(rt; spots.rings(2).held(), 1);
    Ok(())
}

#[test]
fn output_is_as_it_was_said_last(rt: HostRuntime) -> Result<(), Fail> {
    let spots = Spots::new(rt.alloc())?;
    let mut said = [spots.output(), 0, 0];
    spots.tell_output(7);
    said[1] = spots.output();
    spots.tell_output(3);
    said[2] = spots.output();
    assert_eq!(rt; said, [0, 7, 3]);
    Ok(())
}

#[test]
fn closed_is_said_once_for_all(rt: HostRuntime) -> Result<(), Fail> {
    let spots = Spots::new(rt.alloc())?;
    let before = spots.is_closed();
    spots.tell_closed();
    spots.tell_output(1);
    assert_eq!(rt; (before, spots.is_closed()), (false, true));
    Ok(())
}

// A wait with a limit ends by itself, and at once where it was rung before; it tells which.
#[test]
fn a_wait_with_a_limit_ends_by_itself(rt: HostRuntime) -> Result<(), Fail> {
    let spot = Spot::new();
    let alone = spot.wait_at_most(&rt, spot.rings(), Duration::from_millis(1));
    let rings = spot.rings();
    spot.ring();
    let rung = spot.wait_at_most(&rt, rings, Duration::from_secs(3600));
    assert_eq!(rt; (alone, rung, spot.sleepers()), (false, true, 0));
    Ok(())
}

#[test]
fn a_wait_with_a_limit_ends_at_a_ring(rt: HostRuntime) -> Result<(), Fail> {
    let spot = Spot::new();
    let (handle, shared, mut rung) = (&rt, &spot, false);
    join_mut(
        &rt,
        &mut || rung = shared.wait_at_most(handle, 0, Duration::from_secs(3600)),
        &mut || {
            wait_for_sleepers(handle, shared, 1);
            shared.ring();
        },
    );
    assert!(rt; rung);
    Ok(())
}

#[test]
fn each_viewer_has_the_stamp_that_was_said_last(rt: HostRuntime) -> Result<(), Fail> {
    let spots = Spots::new(rt.alloc())?;
    let before = spots.drawn(3);
    spots.tell_drawn(3, 9);
    spots.tell_drawn(4, 7);
    spots.tell_drawn(4, 8);
    assert_eq!(rt;
        [before, spots.drawn(3), spots.drawn(4), spots.drawn(67)],
        [0, 9, 8, 9]
    );
    Ok(())
}
