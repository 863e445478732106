//! The spots of one session.

use crate::rings::Rings;
use crate::spot::Spot;
use std::alloc::{AllocError, Global};
use std::sync::atomic::Ordering::SeqCst;
use std::sync::atomic::{AtomicBool, AtomicU64};

// How many spots the viewers have that are held.
const HELD: usize = 64;

// Where a viewer sleeps until it has caught up, and the stamp that it acknowledged last, or 0.
#[derive(Drop)]
struct Held {
    spot: Spot,
    drawn: AtomicU64,
}

/// The spots of one session (this project's own): one for all who wait for frames, one for the sender, one for the pump
/// while too much waits for the host, and one for each viewer that is held until it has caught up, where viewers whose
/// numbers are 64 apart share one. And how many bytes wait for the host, and what the viewers acknowledged last.
#[derive(Drop)]
pub struct Spots {
    frames: Spot,
    sending: Spot,
    room: Spot,
    held: Vec<Held>,
    output: AtomicU64,
    closed: AtomicBool,
}

impl Spots {
    /// Spots that weren't rung, of a session that has no bytes for its host. Refused for want of memory.
    pub fn new(alloc: Global) -> Result<Spots, AllocError> {
        let mut held = Vec::with_capacity(alloc, HELD)?;
        for _ in 0..HELD {
            held.push(Held {
                spot: Spot::new(),
                drawn: AtomicU64::new(0),
            })?;
        }
        Ok(Spots {
            frames: Spot::new(),
            sending: Spot::new(),
            room: Spot::new(),
            held,
            output: AtomicU64::new(0),
            closed: AtomicBool::new(false),
        })
    }

    /// Where those sleep who wait for frames.
    pub fn frames(&self) -> &Spot {
        &self.frames
    }

    /// Where the sender sleeps while there is nothing for the host.
    pub fn sending(&self) -> &Spot {
        &self.sending
    }

    /// Where the pump sleeps while too much waits for the host.
    pub fn room(&self) -> &Spot {
        &self.room
    }

    /// Where the viewer sleeps while it is held.
    pub fn held(&self, viewer: u32) -> &Spot {
        match self.held.get(viewer as usize % HELD) {
            Some(held) => &held.spot,
            None => &self.frames,
        }
    }

    /// How often was rung for the viewer, to be read before it looks for news.
    pub fn rings(&self, viewer: u32) -> Rings {
        Rings {
            frames: self.frames.rings(),
            held: self.held(viewer).rings(),
        }
    }

    /// Rings for all who sleep at a spot of the session.
    pub fn ring_all(&self) {
        self.frames.ring();
        self.sending.ring();
        self.room.ring();
        for held in self.held.iter() {
            held.spot.ring();
        }
    }

    /// Says that the viewer has acknowledged this stamp. To be called before it is rung where the viewer sleeps.
    pub fn tell_drawn(&self, viewer: u32, stamp: u64) {
        if let Some(held) = self.held.get(viewer as usize % HELD) {
            held.drawn.store(stamp, SeqCst);
        }
    }

    /// The stamp that the viewer acknowledged last, as it was said, or 0. Viewers whose numbers are 64 apart share it.
    pub fn drawn(&self, viewer: u32) -> u64 {
        match self.held.get(viewer as usize % HELD) {
            Some(held) => held.drawn.load(SeqCst),
            None => 0,
        }
    }

    /// Says how many bytes wait for the host. To be called in a turn at the session, so that what is said last holds.
    pub fn tell_output(&self, bytes: u64) {
        self.output.store(bytes, SeqCst);
    }

    /// How many bytes wait for the host, as it was said last.
    pub fn output(&self) -> u64 {
        self.output.load(SeqCst)
    }

    /// Says that the session is closed, so that what waits for its host holds nobody up any more.
    pub fn tell_closed(&self) {
        self.closed.store(true, SeqCst);
    }

    /// Whether it was said that the session is closed.
    pub fn is_closed(&self) -> bool {
        self.closed.load(SeqCst)
    }
}
