//! The port at which the operator asks.

use crate::admin::{Admin, Office};
use crate::saying::say;
use http_server::{Config, Connection, serve};
use std::alloc::Global;
use std::hash::RandomState;
use std::io::{ErrorKind, Read, Write};
use std::net::{Net, SocketAddr, TcpListener, TcpStream};
use std::random::RandomSource;
use std::sync::atomic::AtomicU64;
use std::sync::atomic::Ordering::SeqCst;
use std::sync::{Arc, Wait};
use std::thread::Threads;
use std::time::{Clock, Duration, Instant};
use std::{io, thread};

/// How long a request and its answer may take in all, in seconds.
const PATIENCE: u64 = 5;

/// How many are served at once. Who comes meanwhile is told nothing, and the connection is closed.
const MOST: u64 = 8;

/// How long it is waited where nobody can be let in, in milliseconds.
const PAUSE: u64 = 1000;

/// The listener of the operator's port. A port that can't be listened on is told.
pub(crate) fn listener_at<R>(rt: &R, address: SocketAddr) -> Result<TcpListener, u8>
where
    R: Net<Listener = TcpListener, Stream = TcpStream> + Eprint,
{
    match TcpListener::bind(rt, address) {
        Ok(listener) => Ok(listener),
        Err(error) => {
            let _ = eprintln!(rt;
                "error: the operator's port {address} can't be listened on: {error}"
            );
            Err(8)
        }
    }
}

/// Where the operator asks, and what the operator is told of.
#[derive(Drop)]
pub(crate) struct Counter {
    pub(crate) listener: TcpListener,
    pub(crate) office: Office,
}

impl Counter {
    /// Serves the operator for good, each connection in a thread of its own.
    pub(crate) fn serve<R>(self, rt: &R)
    where
        R: Threads
            + Wait
            + Clock
            + RandomSource
            + AllocGlobal
            + Eprint
            + Copy
            + Send
            + Drop
            + 'static,
    {
        let Counter { listener, office } = self;
        let desk = Desk {
            office,
            busy: AtomicU64::new(0),
        };
        let Ok(desk) = Arc::new(rt.alloc(), desk) else {
            return say(
                rt,
                "error: the operator can't be served, since memory is wanting",
            );
        };
        for _ in rt.forever() {
            match listener.accept() {
                Ok((stream, _peer)) => begin(rt, &desk, stream),
                Err(_) => thread::sleep(rt, Duration::from_millis(PAUSE)),
            }
        }
    }
}

// What all connections share, and how many there are.
#[derive(Drop)]
struct Desk {
    office: Office,
    busy: AtomicU64,
}

// A place at the desk.
struct Seat {
    desk: Arc<Desk, Global>,
}

impl Drop for Seat {
    fn drop(self) {
        let Seat { desk } = self;
        desk.busy.fetch_sub(1, SeqCst);
    }
}

// A place at the desk, if one is free. One thread alone asks.
fn seat_at(desk: &Arc<Desk, Global>) -> Option<Seat> {
    if desk.busy.load(SeqCst) >= MOST {
        return None;
    }
    let desk = Arc::try_clone(desk).ok()?;
    desk.busy.fetch_add(1, SeqCst);
    Some(Seat { desk })
}

// Starts the thread of a connection.
fn begin<R>(rt: &R, desk: &Arc<Desk, Global>, stream: TcpStream)
where
    R: Threads + Wait + Clock + RandomSource + AllocGlobal + Copy + Send + Drop + 'static,
{
    let Some(seat) = seat_at(desk) else {
        return;
    };
    let inner = *rt;
    let _ = thread::spawn(rt, move || serve_one(&inner, &stream, &seat));
}

// Serves one connection. A peer that goes away or stalls has no answer.
fn serve_one<R>(rt: &R, stream: &TcpStream, seat: &Seat)
where
    R: Wait + Clock + RandomSource + AllocGlobal,
{
    let (Ok(keys), Ok(now)) = (RandomState::new(rt), Instant::now(rt)) else {
        return;
    };
    let Some(until) = now.checked_add(Duration::from_secs(PATIENCE)) else {
        return;
    };
    let mut admin = Admin {
        rt,
        office: &seat.desk.office,
    };
    let mut connection = Connection::new(rt.alloc(), keys, Config::default());
    let mut reader = Timed { rt, stream, until };
    let mut writer = Timed { rt, stream, until };
    let _ = serve(&mut connection, &mut admin, &mut reader, &mut writer);
}

// A connection whose reads and writes fail once its time is over.
#[derive(Drop)]
struct Timed<'a, R> {
    rt: &'a R,
    stream: &'a TcpStream,
    until: Instant,
}

impl<'a, R: Clock> Timed<'a, R> {
    // How long the next call may take.
    fn left(&self) -> io::Result<Option<Duration>> {
        let left = self.until.saturating_duration_since(Instant::now(self.rt)?);
        if left < Duration::from_millis(1) {
            return Err(io::Error::from(ErrorKind::TimedOut));
        }
        Ok(Some(left))
    }
}

impl<'a, R: Clock> Read for Timed<'a, R> {
    fn read(&mut self, into: &mut [u8]) -> io::Result<usize> {
        self.stream.set_read_timeout(self.left()?)?;
        (&*self.stream).read(into)
    }
}

impl<'a, R: Clock> Write for Timed<'a, R> {
    fn write(&mut self, piece: &[u8]) -> io::Result<usize> {
        self.stream.set_write_timeout(self.left()?)?;
        (&*self.stream).write(piece)
    }

    fn flush(&mut self) -> io::Result<()> {
        Ok(())
    }
}
