//! Connections that come, and sessions that go.

ghost use Rattle.std.specs.Prelude.{◌≡◌, ◌⊎◌, IfErr, IsErr};
ghost use Rattle.gate_outside.specs.Edge.{CountsFault, Rose};

use crate::jobs::{ConnectionJob, Ends, Links, Pair, RecorderAddress, Tally};
use crate::notes::{note_end, note_recorder_failed, note_refused, note_untidied};
use crate::paging::Page;
use crate::seen::WatchedShelf;
use crate::tidying::TidyJob;
use crate::worker::Worker;
use gate_model::statuses::{NO_MEMORY, SERVER_BUSY};
use gate_model::{Cause, Faces, Instr, NoMemory, Text};
use gate_outside::{Bell, Dialer, Helper, Net, Sink, Spawner, Way, start_by, write_all};
use guac_instr::text_of;
use id_table::LockedShelf;
use log::Log;
use service_door::{OwnMarks, Session, sweep};
use session_list::SessionList;
use std::alloc::Global;
use std::sync::atomic::AtomicU64;
use std::sync::{Arc, Mutex, Wait};
use std::thread::Threads;
use std::time::Duration;
use thread_pool::Pool;

// How often it is looked for sessions that are to be stopped, and how long is waited before each other look, in
// milliseconds.
const LOOKS: u32 = 5;

const PAUSE: u64 = 20;

/// What the service has for every connection: the tables of sessions, of tunnels and of links, a helper of its own, the
/// one bell, the host and the port of the recorder of sessions, where one is wanted, the faces of each session, the
/// page, where it is, where it notes, the list of what runs, and the threads that have served a connection and wait for
/// the next.
#[derive(Drop)]
pub(crate) struct Service<H: Helper, B, L> {
    pub(crate) alloc: Global,
    pub(crate) sessions: LockedShelf<Session>,
    pub(crate) tunnels: WatchedShelf,
    pub(crate) links: Links,
    pub(crate) helper: H,
    pub(crate) bell: B,
    pub(crate) recorder: Option<(Text, u16)>,
    pub(crate) faces: Faces,
    pub(crate) page: Option<Arc<Page, Global>>,
    pub(crate) log: L,
    pub(crate) list: SessionList,
    pub(crate) pool: Pool<ConnectionJob<H::Input, H::Output, H, B, L>>,
}

impl<H, B, L> Service<H, B, L>
where
    H: Helper,
    B: Bell + Send + 'static,
    L: Log + Copy + Send + Drop + 'static,
{
    /// Accepts the next connection, takes the sessions that may leave out of the table, and serves the
    /// connection in a job of its own. A fault comes only where the net's count rose.
    pub(crate) fn accept_next<R, N>(&mut self, rt: &R, net: &mut N) -> Result<(), u8>
    where
        R: Threads + Wait + Copy + Send + Sync + 'static,
        N: Net<Help = H>,
        ensures fault { IfErr result (λ status. status ≡ 8) }
        ensures faults { CountsFault (IsErr result) (N.net_faults net.old) (N.net_faults net.new) }
    {
        let Ok((source, sink)) = net.accept(rt) else {
            return Err(8);
        };
        sweep_all(rt, &self.sessions, &self.log, &self.list);
        self.serve(rt, source, sink);
        Ok(())
    }

    /// Stops all sessions and takes them out of the table, so that each viewer is given what it lacks and its end. A
    /// session that is lent at one look is there at a later one.
    pub(crate) fn stop_all<R: Wait>(&mut self, rt: &R) {
        let pause = AtomicU64::new(0);
        for _ in 0..LOOKS {
            self.stop_here(rt);
            pause.park_timeout(rt, 0, Duration::from_millis(PAUSE));
        }
    }

    // Stops the sessions that aren't lent.
    fn stop_here<R: Wait>(&mut self, rt: &R) {
        for _ in rt.forever() {
            let Some((id, mut session)) = self.sessions.sweep(rt, |_| true) else {
                return;
            };
            session.stop(rt, &self.bell);
            let cause = session.cause().or(Some(Cause::Stopped));
            note_end(&self.log, &id, session.newest(), cause);
            self.list.end(rt, &id, cause);
        }
    }

    /// Starts the job that gives up what nobody uses for so many seconds, of which 0 is never, takes sessions that have
    /// ended out of the table and ends those that the operator asks for, where anybody is told of that. The job never
    /// ends, so a spawner has to start it in a thread of its own.
    pub(crate) fn tidy<R>(&mut self, rt: &R, silence: u32, linger: u32, tells_ends: bool)
    where
        R: Threads + Wait + Copy + Send + Sync + 'static,
    {
        if silence == 0 && linger == 0 && !tells_ends {
            return;
        }
        let Ok(job) = self.tidy_job(silence, linger) else {
            return note_untidied(&self.log);
        };
        let inner = *rt;
        if self.helper.start(rt, move || job.run(&inner)).is_err() {
            note_untidied(&self.log);
        }
    }

    // The job that gives up what nobody uses.
    fn tidy_job(&mut self, silence: u32, linger: u32) -> Result<TidyJob<H, B, L>, NoMemory> {
        Ok(TidyJob {
            alloc: self.alloc,
            sessions: self.sessions.another(),
            tunnels: self.tunnels.another()?,
            links: Arc::try_clone(&self.links)?,
            helper: self.helper.another(self.alloc)?,
            dice: self.helper.another(self.alloc)?,
            bell: self.bell.another(self.alloc)?,
            silence,
            linger,
            log: self.log,
            list: self.list.another()?,
        })
    }

    // Serves a connection in another thread. Where none can be had the connection is sent `error` with 513, and where
    // memory is wanting with 512.
    fn serve<R>(&mut self, rt: &R, source: H::Input, sink: H::Output)
    where
        R: Threads + Wait + Copy + Send + Sync + 'static,
    {
        let Ok(ends) = Arc::new(self.alloc, Mutex::new(Some(Pair { source, sink }))) else {
            return self.tell_refused(NO_MEMORY);
        };
        let Err(status) = self.hand_on(rt, &ends) else {
            return;
        };
        self.tell_refused(status);
        let taken = ends.lock(rt).take();
        if let Some(
            Pair {
                source: _,
                mut sink,
            },
        ) = taken
        {
            refuse(self.alloc, &mut sink, status);
        }
    }

    // Gives the job of a connection to a thread that waits, or else starts one. The status where that fails: 512 for want
    // of memory, and 513 only where the count of jobs that weren't started rose.
    fn hand_on<R>(&mut self, rt: &R, ends: &Ends<H::Input, H::Output>) -> Result<(), u16>
    where
        R: Threads + Wait + Copy + Send + Sync + 'static,
        ensures status { IfErr result (λ status. (status ≡ 512) ⊎ ((status ≡ 513) × Rose (H.helper self.old.helper).start_faults (H.helper self.new.helper).start_faults)) }
    {
        let Ok(job) = self.job(ends) else {
            return Err(NO_MEMORY);
        };
        let Err(job) = self.pool.give(rt, job) else {
            return Ok(());
        };
        let way = self.helper.way();
        // A job that runs in this very call isn't to wait there for a further connection.
        let pool = match way {
            Way::Thread => self.pool.another().ok(),
            Way::Here | Way::Refused => None,
        };
        let (worker, inner) = (Worker { job, pool }, *rt);
        if start_by(rt, way, move || worker.run(&inner)).is_err() {
            self.helper.note();
            return Err(SERVER_BUSY);
        }
        Ok(())
    }

    // Tells that a connection was refused with a status.
    fn tell_refused(&self, status: u16) {
        note_refused(&self.log, status);
        self.list.refuse(status);
    }

    // The job of a connection.
    fn job(
        &mut self,
        ends: &Ends<H::Input, H::Output>,
    ) -> Result<ConnectionJob<H::Input, H::Output, H, B, L>, NoMemory>
        ensures helper { H.helper self.new.helper ≡ H.helper self.old.helper }
    {
        Ok(ConnectionJob {
            alloc: self.alloc,
            ends: Arc::try_clone(ends)?,
            sessions: self.sessions.another(),
            tunnels: self.tunnels.another()?,
            links: Arc::try_clone(&self.links)?,
            helper: self.helper.another(self.alloc)?,
            dice: self.helper.another(self.alloc)?,
            bell: self.bell.another(self.alloc)?,
            recorder: copy_of(self.alloc, &self.recorder)?,
            faces: self.faces,
            page: match &self.page {
                Some(page) => Some(Arc::try_clone(page)?),
                None => None,
            },
            log: self.log,
            tally: Tally::new(&self.list)?,
        })
    }
}

/// Takes all sessions that may leave out of the table. Nothing is said of it: a table that threads share tells nothing, and
/// of each session that leaves `sweep` says what may be said.
pub(crate) fn sweep_all<R: Wait, L: Log>(
    rt: &R,
    sessions: &LockedShelf<Session>,
    log: &L,
    list: &SessionList,
) {
    for _ in rt.forever() {
        let Some((id, mut session)) = sweep(rt, sessions, &OwnMarks {}) else {
            return;
        };
        if session.take_recorder_failed() {
            note_recorder_failed(log, &id);
            list.lose_recorder(rt, &id);
        }
        note_end(log, &id, session.newest(), session.cause());
        list.end(rt, &id, session.cause());
    }
}

// The recorder's host and port once more.
fn copy_of(
    alloc: Global,
    recorder: &Option<(Text, u16)>,
) -> Result<Option<RecorderAddress>, NoMemory> {
    let Some((host, port)) = recorder else {
        return Ok(None);
    };
    let host = Text::of(String::from_str(alloc, host.as_str())?);
    Ok(Some(RecorderAddress { host, port: *port }))
}

// Sends `error` with the status, and finishes the connection.
fn refuse<K: Sink>(alloc: Global, sink: &mut K, status: u16) {
    let mut text = Vec::new(alloc);
    if text_of(&Instr::Error { status }, &mut text).is_ok() {
        let _ = write_all(sink, text.as_slice());
    }
    sink.finish();
}
