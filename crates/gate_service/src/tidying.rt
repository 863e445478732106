//! The job that gives up what nobody uses.

use crate::accepting::sweep_all;
use crate::jobs::Links;
use crate::notes::{
    note_asked, note_backlogged, note_closed, note_deserted, note_end, note_recorder_failed,
    note_silent,
};
use crate::noting::NotingDoor;
use crate::seen::WatchedShelf;
use gate_model::{Cause, Faces};
use gate_outside::{Bell, Dice, Helper};
use guac_handshake::Door;
use http::Method;
use http_front::Request;
use http_tunnel::tunnel_request;
use id_table::{LockedShelf, Shelf};
use log::Log;
use service_door::{
    OwnMarks, ServiceDoor, Session, close_backlogged, find_closed, find_unrecorded, look,
    sweep_deserted,
};
use session_list::SessionList;
use share_links::Linked;
use shared_desk::Place;
use std::alloc::Global;
use std::sync::atomic::AtomicU64;
use std::sync::{Arc, Wait};
use std::thread::Threads;
use std::time::Duration;
use uuid::Uuid;

/// What a viewer sends to leave (the Guacamole protocol).
const DISCONNECT: &[u8] = b"10.disconnect;";

/// The job that looks each second at all sessions and tunnels. A session that has ended leaves the table, and one that the
/// operator asks for is closed. Where one of the
/// two times is given, a session for whose host too much waits is closed. A tunnel without a request for `silence` seconds
/// is removed, as by a `disconnect`, and a session without viewers for `linger` seconds is closed; 0 is never. So that a
/// page that only waits for news asks again in time, all who wait are let look again three times in `silence` seconds.
#[derive(Drop)]
pub(crate) struct TidyJob<H, B, L> {
    pub(crate) alloc: Global,
    pub(crate) sessions: LockedShelf<Session>,
    pub(crate) tunnels: WatchedShelf,
    /// By which a tunnel's session is found, where its viewer came by one.
    pub(crate) links: Links,
    pub(crate) helper: H,
    /// Its dice would draw the IDs of tunnels.
    pub(crate) dice: H,
    pub(crate) bell: B,
    pub(crate) silence: u32,
    pub(crate) linger: u32,
    pub(crate) log: L,
    pub(crate) list: SessionList,
}

impl<H, B, L> TidyJob<H, B, L>
where
    H: Helper,
    B: Bell + Send + 'static,
    L: Log + Copy + Drop,
{
    /// Looks each second, and never ends.
    pub(crate) fn run<R>(self, rt: &R)
    where
        R: Threads + Wait + Copy + Send + Sync + 'static,
    {
        let mut job = self;
        let pause = AtomicU64::new(0);
        let mut looks = 0u32;
        for _ in rt.forever() {
            pause.park_timeout(rt, 0, Duration::from_secs(1));
            looks = looks.saturating_add(1);
            let wakes = job.silence > 0 && looks > job.silence / 3;
            if wakes {
                looks = 0;
            }
            job.note_closed(rt);
            sweep_all(rt, &job.sessions, &job.log, &job.list);
            job.end_asked(rt);
            look(rt, &job.sessions, &job.bell, wakes);
            job.close_backlogged(rt);
            job.note_unrecorded(rt);
            job.close_deserted(rt);
            job.end_silent(rt);
            job.tell_waiting(rt);
        }
    }

    // Closes the sessions for whose hosts too much waits, where anything is given up.
    fn close_backlogged<R: Wait>(&mut self, rt: &R) {
        if self.silence == 0 && self.linger == 0 {
            return;
        }
        for _ in rt.forever() {
            match close_backlogged(rt, &mut self.sessions, &self.bell) {
                Some(id) => note_backlogged(&self.log, &id),
                None => return,
            }
        }
    }

    // Notes which sessions are closed, also where somebody has a place in them yet.
    fn note_closed<R: Wait>(&self, rt: &R) {
        for _ in rt.forever() {
            match find_closed(rt, &self.sessions) {
                Some((id, cause)) => {
                    note_closed(&self.log, &id, cause);
                    self.list.end(rt, &id, Some(cause));
                }
                None => return,
            }
        }
    }

    // Notes which recorders have ended before their sessions.
    fn note_unrecorded<R: Wait>(&self, rt: &R) {
        for _ in rt.forever() {
            match find_unrecorded(rt, &self.sessions) {
                Some(id) => {
                    note_recorder_failed(&self.log, &id);
                    self.list.lose_recorder(rt, &id);
                }
                None => return,
            }
        }
    }

    // Closes the sessions that the operator asks to be ended.
    fn end_asked<R: Wait>(&mut self, rt: &R) {
        for _ in rt.forever() {
            let Some(id) = self.list.take_asked(rt) else {
                return;
            };
            if let Some(mut session) = self.sessions.lend(rt, &id) {
                session.stop(rt, &self.bell);
                self.sessions.back(rt, &id, session);
                note_asked(&self.log, &id);
            }
            self.list.end(rt, &id, Some(Cause::Stopped));
        }
    }

    // Tells the list how many bytes wait for each host. A session that is lent for it goes on meanwhile.
    fn tell_waiting<R: Wait>(&mut self, rt: &R) {
        let ids = self.list.ids(rt);
        for id in ids.iter() {
            if let Some(session) = self.sessions.lend(rt, id) {
                self.list.tell_waiting(rt, id, session.waiting());
                self.sessions.back(rt, id, session);
            }
        }
    }

    // Closes the sessions in which nobody is any more.
    fn close_deserted<R: Wait>(&mut self, rt: &R) {
        if self.linger == 0 {
            return;
        }
        for _ in rt.forever() {
            let swept = sweep_deserted(rt, &self.sessions, self.linger, &OwnMarks {});
            let Some((id, mut session)) = swept else {
                return;
            };
            note_deserted(&self.log, &id);
            session.stop(rt, &self.bell);
            let cause = session.cause().or(Some(Cause::Stopped));
            note_end(&self.log, &id, session.newest(), cause);
            self.list.end(rt, &id, cause);
        }
    }

    // Ends the tunnels that nobody asks for any more.
    fn end_silent<R>(&mut self, rt: &R)
    where
        R: Threads + Wait + Copy + Send + Sync + 'static,
    {
        let Some(seen) = &self.tunnels.seen else {
            return;
        };
        let late = seen.look(rt, self.alloc, self.silence);
        for id in late.iter() {
            note_silent(&self.log);
            self.end(rt, id);
        }
    }

    // Ends a tunnel at the door by which its viewer came. Where memory is wanting it stays until a later look.
    fn end<R>(&mut self, rt: &R, id: &Uuid)
    where
        R: Threads + Wait + Copy + Send + Sync + 'static,
    {
        let (Ok(list), Ok(traffic)) = (self.list.another(), self.list.traffic()) else {
            return;
        };
        let Ok(links) = Arc::try_clone(&self.links) else {
            return;
        };
        let door = ServiceDoor::new(
            &mut self.sessions,
            &mut self.helper,
            &self.bell,
            None,
            Faces::Ascii,
        );
        let door = Linked {
            door: NotingDoor::new(door, self.log, list, traffic),
            links: &links,
        };
        leave_at(
            rt,
            self.alloc,
            door,
            &mut self.tunnels,
            id,
            &mut self.dice,
            &self.bell,
        );
    }
}

// Ends a tunnel at a door, as its viewer would by a `disconnect`.
fn leave_at<R, D, X, B>(
    rt: &R,
    alloc: Global,
    door: Linked<'_, D>,
    tunnels: &mut WatchedShelf,
    id: &Uuid,
    dice: &mut X,
    bell: &B,
)
where
    R: Threads + Wait + Copy + Send + Sync + 'static,
    D: Door<Place = Place> + Drop,
    X: Dice,
    B: Bell,
{
    let mut buffer = Uuid::encode_buffer();
    let digits = id.hyphenated().encode_lower(&mut buffer);
    let Ok(target) = format!(in alloc; "/tunnel?write:{digits}") else {
        return;
    };
    let request = Request {
        method: Method::POST,
        target: target.as_str(),
        body: DISCONNECT,
    };
    let mut door = door;
    let _ = tunnel_request(rt, alloc, tunnels, &request, &mut door, dice, bell);
}
