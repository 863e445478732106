//! The marks that a session's jobs set when they end, and how long nobody has been in it.
//!
//! What a mark says when it is read has no clause: an atomic's `load` tells nothing, since any thread may have written it.
//! So a look at the marks is a value of its own, which this file alone makes, and what follows from it is an equation.

ghost use Rattle.std.specs.Prelude.{◌≡◌};
ghost use Rattle.service_door.specs.Sessions.{have_both_ended, is_passed_over};

use crate::causes::number_of;
use gate_model::{Cause, NoMemory};
use shared_desk::{LinkPass, SenderPass};
use std::alloc::Global;
use std::sync::Arc;
use std::sync::atomic::Ordering::SeqCst;
use std::sync::atomic::{AtomicBool, AtomicU64};

#[derive(Drop)]
struct Flags {
    pump: AtomicBool,
    // The number of the cause for which the session is closed, or 0.
    cause: AtomicU64,
    // Whether that cause was asked for.
    told: AtomicBool,
    sender: AtomicBool,
    // Whether the recorder has ended before its session, and it wasn't asked for since.
    recorder: AtomicBool,
    // At how many looks in a row nobody was there.
    deserted: AtomicU64,
    // Whether somebody may join.
    joinable: bool,
}

/// Which of a session's two jobs have ended, as its marks said at one look.
#[derive(Clone, Copy)]
pub struct Ended {
    pump: bool,
    sender: bool,
}

impl Ended {
    /// Whether both have.
    pub(crate) fn both(self) -> bool
        ensures { result ≡ have_both_ended self }
    {
        self.pump && self.sender
    }
}

/// At how many looks in a row nobody was in a session, as its marks said at one look, and whether somebody may join it.
#[derive(Clone, Copy)]
pub struct Deserted {
    looks: u64,
    joinable: bool,
}

impl Deserted {
    /// Whether nobody was there at more than `most` looks in a row, or at one where nobody may join.
    pub(crate) fn is_passed_over(self, most: u32) -> bool
        ensures { result ≡ is_passed_over self most }
    {
        let most = if self.joinable { u64::from(most) } else { 0 };
        self.looks > most
    }
}

/// The marks of one session, shared by its table and its jobs. Contracts tell nothing of what they say.
#[derive(Drop)]
pub(crate) struct SharedMarks {
    marks: Arc<Flags, Global>,
}

impl SharedMarks {
    /// Marks that nobody has set, of a session that others may join or not.
    pub(crate) fn new(alloc: Global, joinable: bool) -> Result<SharedMarks, NoMemory> {
        let marks = Flags {
            pump: AtomicBool::new(false),
            cause: AtomicU64::new(0),
            told: AtomicBool::new(false),
            sender: AtomicBool::new(false),
            recorder: AtomicBool::new(false),
            deserted: AtomicU64::new(0),
            joinable,
        };
        Ok(SharedMarks {
            marks: Arc::new(alloc, marks)?,
        })
    }

    /// The same marks once more.
    pub(crate) fn another(&self) -> Result<SharedMarks, NoMemory> {
        Ok(SharedMarks {
            marks: Arc::try_clone(&self.marks)?,
        })
    }

    /// Says for which cause the session is closed. The first that is said stays.
    pub(crate) fn closed_for(&self, cause: Cause) {
        let number = number_of(cause);
        let _ = self.marks.cause.compare_exchange(0, number, SeqCst, SeqCst);
    }

    /// The number of the cause for which the session is closed, or 0.
    pub(crate) fn cause(&self) -> u64 {
        self.marks.cause.load(SeqCst)
    }

    /// The same, where it wasn't asked for so before; else 0.
    pub(crate) fn take_cause(&self) -> u64 {
        let cause = self.cause();
        if cause > 0 && !self.marks.told.swap(true, SeqCst) {
            cause
        } else {
            0
        }
    }

    /// Says that the pump has ended, whose pass is gone then: behind the mark nothing is fed.
    pub(crate) fn pump_ended(&self, pass: LinkPass) {
        drop(pass);
        self.marks.pump.store(true, SeqCst);
    }

    /// Says that the sender has ended, whose pass is gone then: behind the mark nothing is sent.
    pub(crate) fn sender_ended(&self, pass: SenderPass) {
        drop(pass);
        self.marks.sender.store(true, SeqCst);
    }

    /// Says that the recorder has ended before its session.
    pub(crate) fn recorder_failed(&self) {
        self.marks.recorder.store(true, SeqCst);
    }

    /// Whether the recorder has ended before its session, and it wasn't asked for since.
    pub(crate) fn take_recorder_failed(&self) -> bool {
        self.marks.recorder.swap(false, SeqCst)
    }

    /// Which jobs have ended.
    pub(crate) fn ended(&self) -> Ended {
        Ended {
            pump: self.marks.pump.load(SeqCst),
            sender: self.marks.sender.load(SeqCst),
        }
    }

    /// Counts a look, at which somebody was there or not.
    pub(crate) fn count_look(&self, deserted: bool) {
        if deserted {
            self.marks.deserted.fetch_add(1, SeqCst);
        } else {
            self.marks.deserted.store(0, SeqCst);
        }
    }

    /// At how many looks in a row nobody was there.
    pub(crate) fn deserted(&self) -> Deserted {
        Deserted {
            looks: self.marks.deserted.load(SeqCst),
            joinable: self.marks.joinable,
        }
    }
}
