//! The list.

use crate::counts::Counts;
use crate::json::json_of;
use crate::metrics::metrics_of;
use crate::row::Row;
use crate::traffic::Carried;
use crate::{Fault, Outside, Traffic};
use gate_model::{Cause, NoMemory, Role};
use std::alloc::Global;
use std::collections::BTreeMap;
use std::sync::atomic::AtomicU64;
use std::sync::atomic::Ordering::SeqCst;
use std::sync::{Arc, Mutex, Wait};
use uuid::Uuid;

/// The viewer who begins a session, and the one that records it.
const OWNER: u32 = 1;

const RECORDER: u32 = 2;

#[derive(Drop)]
struct Shared {
    rows: Mutex<BTreeMap<Uuid, Row>>,
    counts: Counts,
    carried: Arc<Carried, Global>,
    // The seconds since the service began.
    now: AtomicU64,
}

/// What an asking that a session is ended comes to.
#[derive(Clone, Copy, Debug, PartialEq, Eq)]
pub enum Ending {
    /// It is asked for.
    Asked,
    /// No session has an ID that begins so.
    Unknown,
    /// Several have one.
    Ambiguous,
}

/// The list of sessions, shared by the threads that tell it and those that show it. Where memory is wanting a session or
/// a viewer isn't in it.
#[derive(Drop)]
pub struct SessionList {
    alloc: Global,
    shared: Arc<Shared, Global>,
}

impl SessionList {
    /// A list of nothing.
    pub fn new(alloc: Global) -> Result<SessionList, NoMemory> {
        let shared = Shared {
            rows: Mutex::new(BTreeMap::new(alloc)),
            counts: Counts::new(),
            carried: Arc::new(alloc, Carried::new())?,
            now: AtomicU64::new(0),
        };
        Ok(SessionList {
            alloc,
            shared: Arc::new(alloc, shared)?,
        })
    }

    /// The same list once more, for another thread.
    pub fn another(&self) -> Result<SessionList, NoMemory> {
        Ok(SessionList {
            alloc: self.alloc,
            shared: Arc::try_clone(&self.shared)?,
        })
    }

    /// The counts for the link of a session that may begin.
    pub fn traffic(&self) -> Result<Traffic, NoMemory> {
        Traffic::new(self.alloc, &self.shared.carried)
    }

    /// So many seconds have gone since the service began.
    pub fn tell_time(&self, seconds: u64) {
        self.shared.now.store(seconds, SeqCst);
    }

    /// The session of this name has begun, to the host and the port, with its owner in it and perhaps a recorder.
    pub fn begin<R: Wait>(
        &self,
        rt: &R,
        name: &str,
        host: &str,
        port: u16,
        traffic: &Traffic,
        is_recorded: bool,
    ) {
        self.shared.counts.begun.fetch_add(1, SeqCst);
        traffic.begin();
        let Some(row) = self.row_of(host, port, traffic) else {
            return;
        };
        if let Some(id) = id_in(name) {
            let _ = self.shared.rows.lock(rt).insert(id, row);
        }
        self.join(rt, name, OWNER, Role::Control);
        if is_recorded {
            self.join(rt, name, RECORDER, Role::Keep);
        }
    }

    // A row for a session that begins now.
    fn row_of(&self, host: &str, port: u16, traffic: &Traffic) -> Option<Row> {
        let now = self.shared.now.load(SeqCst);
        Row::new(self.alloc, host, port, now, traffic.another().ok()?).ok()
    }

    /// A viewer has joined the session of this name.
    pub fn join<R: Wait>(&self, rt: &R, name: &str, viewer: u32, role: Role) {
        self.shared.counts.joined.fetch_add(1, SeqCst);
        let Some(id) = id_in(name) else {
            return;
        };
        if let Some(row) = self.shared.rows.lock(rt).get_mut(&id) {
            row.join(viewer, role);
        }
    }

    /// A viewer has left the session of this name.
    pub fn leave<R: Wait>(&self, rt: &R, name: &str, viewer: u32) {
        let Some(id) = id_in(name) else {
            return;
        };
        if let Some(row) = self.shared.rows.lock(rt).get_mut(&id) {
            row.leave(viewer);
        }
    }

    /// The recorder of a session has gone before it.
    pub fn lose_recorder<R: Wait>(&self, rt: &R, id: &Uuid) {
        self.fail(Fault::Recorder);
        if let Some(row) = self.shared.rows.lock(rt).get_mut(id) {
            row.leave(RECORDER);
        }
    }

    /// A session is closed or taken back, for a cause where it is known, and leaves the list, if it is there.
    pub fn end<R: Wait>(&self, rt: &R, id: &Uuid, cause: Option<Cause>) {
        let gone = self.shared.rows.lock(rt).remove(id);
        if gone.is_some() {
            self.shared.counts.end(cause.unwrap_or(Cause::Stopped));
        }
    }

    /// The session of this name was taken back.
    pub fn undo<R: Wait>(&self, rt: &R, name: &str) {
        if let Some(id) = id_in(name) {
            self.end(rt, &id, None);
        }
    }

    /// Who asked was refused with a status.
    pub fn refuse(&self, status: u16) {
        self.shared.counts.refuse(status);
    }

    /// Something went wrong.
    pub fn fail(&self, fault: Fault) {
        self.shared.counts.fail(fault);
    }

    /// The IDs of all sessions. Where memory is wanting some are missing.
    pub fn ids<R: Wait>(&self, rt: &R) -> Vec<Uuid> {
        let mut ids = Vec::new(self.alloc);
        for id in self.shared.rows.lock(rt).keys() {
            if ids.push(*id).is_err() {
                break;
            }
        }
        ids
    }

    /// So many bytes wait for the host of a session.
    pub fn tell_waiting<R: Wait>(&self, rt: &R, id: &Uuid, bytes: u64) {
        if let Some(row) = self.shared.rows.lock(rt).get_mut(id) {
            row.waiting = bytes;
        }
    }

    /// Asks that the session is ended whose ID begins with these eight digits, where there is one alone.
    pub fn ask_end<R: Wait>(&self, rt: &R, digits: &str) -> Ending {
        let mut rows = self.shared.rows.lock(rt);
        let mut found = None;
        for (id, _row) in rows.iter() {
            let mut buffer = Uuid::encode_buffer();
            if first_of(id, &mut buffer) == digits {
                if found.is_some() {
                    return Ending::Ambiguous;
                }
                found = Some(*id);
            }
        }
        match found.and_then(|id| rows.get_mut(&id)) {
            Some(row) => {
                row.is_asked = true;
                Ending::Asked
            }
            None => Ending::Unknown,
        }
    }

    /// The least ID of a session that is asked to be ended, which is told once.
    pub fn take_asked<R: Wait>(&self, rt: &R) -> Option<Uuid> {
        for (id, row) in self.shared.rows.lock(rt).iter_mut() {
            if row.is_asked {
                row.is_asked = false;
                return Some(*id);
            }
        }
        None
    }

    /// The sessions as an array of JSON.
    pub fn json<R: Wait>(&self, rt: &R) -> Result<String, NoMemory> {
        let now = self.shared.now.load(SeqCst);
        json_of(self.alloc, &self.shared.rows.lock(rt), now)
    }

    /// The counts as Prometheus reads them.
    pub fn metrics<R: Wait>(&self, rt: &R, outside: &Outside) -> Result<String, NoMemory> {
        let shared = &self.shared;
        metrics_of(
            self.alloc,
            &shared.rows.lock(rt),
            &shared.counts,
            &shared.carried,
            outside,
        )
    }
}

// The ID of a name, which begins with `$`.
fn id_in(name: &str) -> Option<Uuid> {
    Uuid::parse_str(name.strip_prefix("$")?).ok()
}

/// The first eight digits of an ID, which is written into the buffer.
pub(crate) fn first_of<'a>(id: &Uuid, buffer: &'a mut [u8; 45]) -> &'a str {
    id.hyphenated().encode_lower(buffer).get(..8).unwrap_or("")
}
