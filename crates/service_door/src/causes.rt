//! Why a session has ended.

use crate::Session;
use gate_model::Cause;
use id_table::LockedShelf;
use session_link::PumpEnd;
use std::sync::Wait;
use std::sync::atomic::AtomicU64;
use std::sync::atomic::Ordering::SeqCst;
use uuid::Uuid;

impl Session {
    /// Why the session was closed, once that was asked for or its pump has ended.
    pub fn cause(&self) -> Option<Cause> {
        cause_of(self.marks.cause())
    }
}

/// The least ID of a session that is closed, which is told once of each, and why it is.
pub fn find_closed<R: Wait>(rt: &R, sessions: &LockedShelf<Session>) -> Option<(Uuid, Cause)> {
    let number = AtomicU64::new(0);
    let id = sessions.least_done(rt, |session| {
        let cause = session.marks.take_cause();
        number.store(cause, SeqCst);
        cause > 0
    })?;
    Some((id, cause_of(number.load(SeqCst))?))
}

/// Why a session is closed whose pump has ended so; at want of memory its job stops it.
pub(crate) fn cause_at(end: PumpEnd) -> Cause {
    match end {
        PumpEnd::LinkEnded => Cause::ServerEnd,
        PumpEnd::ReadFault => Cause::LinkFault,
        PumpEnd::Closed(cause) => cause,
        PumpEnd::Worn => Cause::Worn,
        PumpEnd::NoMemory => Cause::Stopped,
    }
}

/// The number of a cause, as a mark has it, of 1 to 4; 0 is none.
pub(crate) fn number_of(cause: Cause) -> u64 {
    match cause {
        Cause::ServerEnd => 1,
        Cause::LinkFault => 2,
        Cause::Stopped => 3,
        Cause::Worn => 4,
    }
}

// The cause of a number.
fn cause_of(number: u64) -> Option<Cause> {
    match number {
        1 => Some(Cause::ServerEnd),
        2 => Some(Cause::LinkFault),
        3 => Some(Cause::Stopped),
        4 => Some(Cause::Worn),
        _ => None,
    }
}
