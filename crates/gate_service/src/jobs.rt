//! The job of one connection.

use crate::notes::note_foreign;
use crate::noting::NotingDoor;
use crate::paging::{Page, refuse};
use crate::refused::refused_with;
use crate::seen::WatchedShelf;
use crate::{ConnEnd, Lookahead, connection};
use fetch_site::{Front, look};
use gate_model::statuses::FORBIDDEN;
use gate_model::{Bytes, Faces, NoMemory, Text};
use gate_outside::{Again, Bell, Dice, Helper, Sink, Source};
use guac_handshake::Door;
use id_table::LockedShelf;
use log::Log;
use service_door::{ServiceDoor, Session};
use session_list::{SessionList, Traffic, TrafficHelper};
use share_links::{LinkTable, Linked};
use shared_desk::Place;
use std::alloc::Global;
use std::sync::{Arc, Mutex, Wait};
use std::thread::Threads;
use user_serve::{UserEnd, Visit};

/// The two ends of a connection.
#[derive(Drop)]
pub(crate) struct Pair<S, K> {
    pub(crate) source: S,
    pub(crate) sink: K,
}

/// The ends of a connection, which the job takes, or who couldn't start it.
pub(crate) type Ends<S, K> = Arc<Mutex<Option<Pair<S, K>>>, Global>;

/// The links of the service, which its connections share.
pub(crate) type Links = Arc<Mutex<LinkTable>, Global>;

/// Where a connection is counted: in the list of what runs, and the link that it may dial, by the door and by its helper.
#[derive(Drop)]
pub(crate) struct Tally {
    pub(crate) list: SessionList,
    pub(crate) traffic: Traffic,
    pub(crate) of_helper: Traffic,
}

impl Tally {
    /// That of a new connection.
    pub(crate) fn new(list: &SessionList) -> Result<Tally, NoMemory> {
        let traffic = list.traffic()?;
        Ok(Tally {
            list: list.another()?,
            of_helper: traffic.another()?,
            traffic,
        })
    }
}

/// Where a recorder listens.
#[derive(Drop)]
pub(crate) struct RecorderAddress {
    pub(crate) host: Text,
    pub(crate) port: u16,
}

/// The job that serves one connection.
#[derive(Drop)]
pub(crate) struct ConnectionJob<S, K, H, B, L> {
    pub(crate) alloc: Global,
    pub(crate) ends: Ends<S, K>,
    pub(crate) sessions: LockedShelf<Session>,
    pub(crate) tunnels: WatchedShelf,
    pub(crate) links: Links,
    pub(crate) helper: H,
    /// Its dice draw the IDs of tunnels.
    pub(crate) dice: H,
    pub(crate) bell: B,
    pub(crate) recorder: Option<RecorderAddress>,
    /// Those of each session that it begins.
    pub(crate) faces: Faces,
    pub(crate) page: Option<Arc<Page, Global>>,
    pub(crate) log: L,
    pub(crate) tally: Tally,
}

impl<S, K, H, B, L> ConnectionJob<S, K, H, B, L>
where
    S: Source + Send + 'static,
    K: Sink + Send + 'static,
    H: Helper,
    B: Bell + Send + 'static,
    L: Log + Copy + Drop,
{
    /// Serves the connection, and gives the place of a visit back to the door. At its end the connection is
    /// finished.
    pub(crate) fn run<R>(self, rt: &R)
    where
        R: Threads + Wait + Copy + Send + Sync + 'static,
    {
        let ConnectionJob {
            alloc,
            ends,
            mut sessions,
            tunnels,
            links,
            helper,
            dice,
            bell,
            recorder,
            faces,
            page,
            log,
            tally,
        } = self;
        let Some(
            Pair {
                mut source,
                mut sink,
            },
        ) = ends.lock(rt).take()
        else {
            return;
        };
        let Some(front) = front_of(alloc, &mut source, &mut sink, &page, &log, &tally.list) else {
            return sink.finish();
        };
        let source = Again::new(Bytes::of(front), source);
        let recorder = recorder.map(|it| (it.host, it.port));
        let mut helper = TrafficHelper::new(helper, tally.of_helper);
        let door = ServiceDoor::new(&mut sessions, &mut helper, &bell, recorder, faces);
        let door = Linked {
            door: NotingDoor::new(door, log, tally.list, tally.traffic),
            links: &links,
        };
        serve_at(rt, alloc, source, sink, door, tunnels, dice, &bell);
    }
}

// What was read ahead of a connection. None where that is all: another site's page asks, which is refused, the page was
// asked for and is answered, or a read has failed.
fn front_of<S: Source, K: Sink, L: Log>(
    alloc: Global,
    source: &mut S,
    sink: &mut K,
    page: &Option<Arc<Page, Global>>,
    log: &L,
    list: &SessionList,
) -> Option<Vec<u8>> {
    let mut front = Vec::new(alloc);
    match look(source, &mut front) {
        Ok(Front::Foreign) => {
            note_foreign(log);
            list.refuse(FORBIDDEN);
            refuse(alloc, sink);
            return None;
        }
        Ok(Front::Fault) => return None,
        Ok(Front::Other) | Err(NoMemory) => {}
    }
    match page {
        Some(page) if page.answers(alloc, &front, sink, log, list) => None,
        _ => Some(front),
    }
}

// Serves the connection at the door, finishes it, and gives the place of a visit back to the door.
fn serve_at<R, S, K, D, X, B, L>(
    rt: &R,
    alloc: Global,
    source: S,
    sink: K,
    door: Linked<'_, NotingDoor<D, L>>,
    tunnels: WatchedShelf,
    dice: X,
    bell: &B,
)
where
    R: Threads + Wait + Copy + Send + Sync + 'static,
    S: Source + Send,
    K: Sink + Send,
    D: Door<Place = Place> + Drop,
    X: Dice,
    B: Bell + Send,
    L: Log + Copy + Drop,
{
    let mut sink = sink;
    let mut source = Lookahead::new(source);
    let mut door = door;
    let (mut tunnels, mut dice) = (tunnels, dice);
    let end = connection(
        rt,
        alloc,
        &mut source,
        &mut sink,
        &mut door,
        &mut tunnels,
        &mut dice,
        bell,
    );
    sink.finish();
    if let Some(status) = refused_with(&end) {
        door.door.list.refuse(status);
    }
    if let Some((id, place)) = place_of(end) {
        door.give(rt, id.as_str(), place);
    }
}

// The place that a viewer had, with the ID of its session.
fn place_of(end: ConnEnd) -> Option<(Text, Place)> {
    match end {
        ConnEnd::User(UserEnd::Served(visit)) => {
            let Visit { id, place, .. } = visit;
            Some((id, place))
        }
        ConnEnd::Ws(run) => run.place,
        _ => None,
    }
}
