//! Whom a change of a session wakes, and where a viewer waits for one.

use crate::Bell;
use gate_model::Act;
use std::sync::Wait;
use std::time::Duration;
use wake_spot::{Rings, Spots};

// Above what the keys of one long paste may have waiting: a host that echoes it, and reads no more before its echo is
// read, would else never go on.
const MUCH: u64 = 1_114_112;

const LITTLE: u64 = 557_056;

// How many seconds a viewer has to draw a picture before it is given another, where it acknowledges nothing meanwhile.
const DRAWING: u64 = 1;

/// Rings after a Feed: for all who wait for frames, and for the sender where bytes wait for the host (this project's
/// own).
pub fn ring_after_feed<B: Bell>(bell: &B, spots: &Spots) {
    bell.ring_at(spots.frames());
    ring_for_output(bell, spots);
}

/// Rings after a Write of the viewer: for the viewer, which may be held, where the acts acknowledge a frame, and for the
/// sender where bytes wait for the host. So what is only acknowledged wakes nobody else (this project's own).
pub fn ring_after_write<B: Bell>(bell: &B, spots: &Spots, viewer: u32, acts: &[Act]) {
    if let Some(stamp) = acknowledged(acts) {
        spots.tell_drawn(viewer, stamp);
        bell.ring_at(spots.held(viewer));
    }
    ring_for_output(bell, spots);
}

// The stamp that the acts acknowledge last, if they do.
fn acknowledged(acts: &[Act]) -> Option<u64> {
    let mut newest = None;
    for act in acts {
        if let Act::Sync { stamp } = act {
            newest = Some(*stamp);
        }
    }
    newest
}

/// Rings after a Leave of the viewer: for its reads, wherever they wait (this project's own).
pub fn ring_after_leave<B: Bell>(bell: &B, spots: &Spots, viewer: u32) {
    bell.ring_at(spots.frames());
    bell.ring_at(spots.held(viewer));
}

/// Rings after a Take: for the pump, which waits while too much waits for the host (this project's own).
pub fn ring_after_take<B: Bell>(bell: &B, spots: &Spots) {
    bell.ring_at(spots.room());
}

// Rings for the sender where bytes wait for the host.
fn ring_for_output<B: Bell>(bell: &B, spots: &Spots) {
    if spots.output() > 0 {
        bell.ring_at(spots.sending());
    }
}

/// Where more than `MUCH` bytes wait for the host of an open session, waits until fewer than `LITTLE` do, so that a host
/// that asks and doesn't read is held back (this project's own).
pub fn wait_for_room<R: Wait, B: Bell>(rt: &R, bell: &B, spots: &Spots) {
    if spots.output() <= MUCH {
        return;
    }
    for _ in rt.forever() {
        let rings = spots.room().rings();
        if spots.output() < LITTLE || spots.is_closed() {
            return;
        }
        bell.wait_at(rt, spots.room(), rings);
    }
}

/// Waits until there may be news for the viewer: a frame, or where it is held what it acknowledges. `rings` was read
/// before the look that found none (this project's own).
pub fn wait_for_news<R: Wait, B: Bell>(
    rt: &R,
    bell: &B,
    spots: &Spots,
    viewer: u32,
    held: bool,
    rings: Rings,
) {
    if held {
        bell.wait_at(rt, spots.held(viewer), rings.held());
    } else {
        bell.wait_at(rt, spots.frames(), rings.frames());
    }
}

/// Waits until the viewer has acknowledged the stamp, which is that of a whole picture, or acknowledges nothing for a
/// second. So one that lags isn't given one picture after the other while it draws the first. A viewer that has never
/// acknowledged anything isn't waited for, as a recorder never does (this project's own).
pub fn wait_for_drawing<R: Wait, B: Bell>(
    rt: &R,
    bell: &B,
    spots: &Spots,
    viewer: u32,
    stamp: u64,
) {
    let mut before = 0;
    for _ in rt.forever() {
        let rings = spots.held(viewer).rings();
        let drawn = spots.drawn(viewer);
        // What rang but for an acknowledgement is news of the viewer's end.
        if drawn == before || drawn >= stamp || spots.is_closed() {
            return;
        }
        before = drawn;
        let most = Duration::from_secs(DRAWING);
        if !bell.wait_at_most(rt, spots.held(viewer), rings, most) {
            return;
        }
    }
}
