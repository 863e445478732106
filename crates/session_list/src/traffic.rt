//! What the link of a session to its host has carried.

use gate_model::NoMemory;
use std::alloc::Global;
use std::sync::Arc;
use std::sync::atomic::AtomicU64;
use std::sync::atomic::Ordering::SeqCst;

/// Bytes that came of hosts, bytes that went to them, and frames.
#[derive(Drop)]
pub(crate) struct Carried {
    bytes_in: AtomicU64,
    bytes_out: AtomicU64,
    frames: AtomicU64,
}

impl Carried {
    /// Nothing was carried.
    pub(crate) fn new() -> Carried {
        Carried {
            bytes_in: AtomicU64::new(0),
            bytes_out: AtomicU64::new(0),
            frames: AtomicU64::new(0),
        }
    }

    /// How many bytes came of hosts.
    pub(crate) fn bytes_in(&self) -> u64 {
        self.bytes_in.load(SeqCst)
    }

    /// How many bytes went to hosts.
    pub(crate) fn bytes_out(&self) -> u64 {
        self.bytes_out.load(SeqCst)
    }

    /// How many frames were made.
    pub(crate) fn frames(&self) -> u64 {
        self.frames.load(SeqCst)
    }
}

/// What the link of one session has carried, shared by both of its ends and the list. It is counted for all sessions too.
#[derive(Drop)]
pub struct Traffic {
    pub(crate) own: Arc<Carried, Global>,
    all: Arc<Carried, Global>,
}

impl Traffic {
    /// That of a session which hasn't begun.
    pub(crate) fn new(alloc: Global, all: &Arc<Carried, Global>) -> Result<Traffic, NoMemory> {
        Ok(Traffic {
            own: Arc::new(alloc, Carried::new())?,
            all: Arc::try_clone(all)?,
        })
    }

    /// The same once more.
    pub fn another(&self) -> Result<Traffic, NoMemory> {
        Ok(Traffic {
            own: Arc::try_clone(&self.own)?,
            all: Arc::try_clone(&self.all)?,
        })
    }

    /// The session begins, with its first frame.
    pub(crate) fn begin(&self) {
        self.count_frame();
    }

    /// So many bytes came of the host in a piece, of which a frame is made.
    pub(crate) fn count_in(&self, bytes: usize) {
        self.own.bytes_in.fetch_add(bytes as u64, SeqCst);
        self.all.bytes_in.fetch_add(bytes as u64, SeqCst);
        self.count_frame();
    }

    /// So many bytes went to the host.
    pub(crate) fn count_out(&self, bytes: usize) {
        self.own.bytes_out.fetch_add(bytes as u64, SeqCst);
        self.all.bytes_out.fetch_add(bytes as u64, SeqCst);
    }

    fn count_frame(&self) {
        self.own.frames.fetch_add(1, SeqCst);
        self.all.frames.fetch_add(1, SeqCst);
    }
}
