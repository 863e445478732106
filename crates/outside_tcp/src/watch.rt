//! What a program sees and asks of its net while it serves.

use gate_model::NoMemory;
use libc::net::{SHUT_RD, shutdown};
use std::alloc::Global;
use std::sync::Arc;
use std::sync::atomic::Ordering::SeqCst;
use std::sync::atomic::{AtomicBool, AtomicU64};
use std::time::Duration;

#[derive(Drop)]
struct Seen {
    // The listener's descriptor and one, or 0 where nothing listens.
    listener: AtomicU64,
    refused: AtomicU64,
    // The number of the system's fault that ended it, or 0.
    fault: AtomicU64,
    // How many sinks there are.
    open: AtomicU64,
    ending: AtomicBool,
    hurried: AtomicBool,
    // Whether turns are counted, how many there were, and how many nanoseconds they took in all.
    counting: AtomicBool,
    turns: AtomicU64,
    nanoseconds: AtomicU64,
}

/// A net that is watched from another thread: how often it could let nobody in for want of descriptors, how many of its
/// connections are open, how long what hosts sent took, and its end. Contracts tell nothing of it.
#[derive(Drop)]
pub struct Watch {
    seen: Arc<Seen, Global>,
}

impl Watch {
    /// A watch over a net that doesn't listen yet.
    pub fn new(alloc: Global) -> Result<Watch, NoMemory> {
        let seen = Seen {
            listener: AtomicU64::new(0),
            refused: AtomicU64::new(0),
            fault: AtomicU64::new(0),
            open: AtomicU64::new(0),
            ending: AtomicBool::new(false),
            hurried: AtomicBool::new(false),
            counting: AtomicBool::new(false),
            turns: AtomicU64::new(0),
            nanoseconds: AtomicU64::new(0),
        };
        Ok(Watch {
            seen: Arc::new(alloc, seen)?,
        })
    }

    /// The same watch once more.
    pub fn another(&self) -> Result<Watch, NoMemory> {
        Ok(Watch {
            seen: Arc::try_clone(&self.seen)?,
        })
    }

    /// How often nobody could be let in so far.
    pub fn refused(&self) -> u64 {
        self.seen.refused.load(SeqCst)
    }

    /// The number of the system's fault that ended it (errno(3)), where there was one.
    pub fn fault(&self) -> Option<i32> {
        match i32::try_from(self.seen.fault.load(SeqCst)) {
            Ok(number) if number > 0 => Some(number),
            _ => None,
        }
    }

    /// Ends the net: the `accept` that waits fails, and each that comes.
    pub fn end(&self) {
        self.seen.ending.store(true, SeqCst);
        let held = self.seen.listener.load(SeqCst);
        if let Ok(fd) = i32::try_from(held.saturating_sub(1)) {
            if held > 0 {
                let _ = shutdown(fd, SHUT_RD);
            }
        }
    }

    /// The same, and nobody waits for what its connections still have to be sent.
    pub fn end_at_once(&self) {
        self.seen.hurried.store(true, SeqCst);
        self.end();
    }

    /// Whether the net listens.
    pub fn is_listening(&self) -> bool {
        self.seen.listener.load(SeqCst) > 0
    }

    /// Whether the net was told to end.
    pub fn is_ending(&self) -> bool {
        self.seen.ending.load(SeqCst)
    }

    /// Whether it was told to end at once.
    pub fn is_hurried(&self) -> bool {
        self.seen.hurried.load(SeqCst)
    }

    /// How many of its connections are open, those to hosts among them.
    pub fn open(&self) -> u64 {
        self.seen.open.load(SeqCst)
    }

    /// Lets it be counted from now on how long each piece of a host takes, until the next can be read.
    pub fn count_turns(&self) {
        self.seen.counting.store(true, SeqCst);
    }

    /// How many pieces of hosts were counted so.
    pub fn turns(&self) -> u64 {
        self.seen.turns.load(SeqCst)
    }

    /// How many nanoseconds they took in all.
    pub fn nanoseconds(&self) -> u64 {
        self.seen.nanoseconds.load(SeqCst)
    }

    // Whether pieces of hosts are counted.
    pub(crate) fn counts_turns(&self) -> bool {
        self.seen.counting.load(SeqCst)
    }

    // A piece of a host took so long.
    pub(crate) fn count_turn(&self, took: Duration) {
        let nanoseconds = u64::try_from(took.as_nanos()).unwrap_or(0);
        self.seen.turns.fetch_add(1, SeqCst);
        self.seen.nanoseconds.fetch_add(nanoseconds, SeqCst);
    }

    // A connection is open.
    pub(crate) fn count_open(&self) {
        self.seen.open.fetch_add(1, SeqCst);
    }

    // A connection that was open is gone.
    pub(crate) fn count_gone(&self) {
        self.seen.open.fetch_sub(1, SeqCst);
    }

    // Once more nobody could be let in.
    pub(crate) fn count_refused(&self) {
        self.seen.refused.fetch_add(1, SeqCst);
    }

    // The net has ended by this fault.
    pub(crate) fn fails(&self, code: Option<i32>) {
        if let Ok(number) = u64::try_from(code.unwrap_or(0)) {
            self.seen.fault.store(number, SeqCst);
        }
    }

    // The net listens at this descriptor.
    pub(crate) fn listens(&self, fd: i32) {
        if let Ok(held) = u64::try_from(fd) {
            self.seen.listener.store(held.saturating_add(1), SeqCst);
        }
    }
}
