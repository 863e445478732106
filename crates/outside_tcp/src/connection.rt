//! The two ends of a TCP connection, which share its one descriptor.

use crate::Watch;
use crate::common::Common;
use crate::keeping::keep;
use crate::sink::TcpSink;
use gate_outside::StdSource;
use std::alloc::Global;
use std::io;
use std::io::{ErrorKind, Read};
use std::net::TcpStream;
use std::sync::Arc;
use std::sync::atomic::AtomicBool;
use std::sync::atomic::Ordering::SeqCst;
use std::time::{Clock, Duration, Instant};

/// How long who connects has for its greeting, and for its request, in seconds (this project's own).
const GREETING: u64 = 10;

/// A connection, as both of its ends have it: whether its greeting is over, how long it may take nothing, and send
/// nothing behind its greeting, and who counts that it is open.
#[derive(Drop)]
pub(crate) struct Connection {
    pub(crate) stream: TcpStream,
    pub(crate) settled: AtomicBool,
    silence: Option<Duration>,
    pub(crate) watch: Option<Watch>,
}

/// The end of a TCP connection that is read from. It shares its one descriptor with the sink. Who connects has ten
/// seconds for a greeting or a request, by one deadline over all reads; each read fails that comes later. Where whoever
/// watches the net asks that, it is counted how long each piece of a host takes until the next can be read.
#[derive(Drop)]
pub struct TcpEnd<R> {
    rt: R,
    connection: Arc<Connection, Global>,
    // None where no greeting is waited for.
    until: Option<Instant>,
    is_host: bool,
    // When the last piece of a host came, where that is counted.
    came: Option<Instant>,
}

impl<R: Clock> TcpEnd<R> {
    // Lets the next read wait as long as it may.
    fn limit(&mut self) -> io::Result<()> {
        let Some(until) = self.until else {
            return Ok(());
        };
        if self.connection.settled.load(SeqCst) {
            self.until = None;
            return self
                .connection
                .stream
                .set_read_timeout(self.connection.silence);
        }
        let left = until.saturating_duration_since(Instant::now(&self.rt)?);
        if left < Duration::from_millis(1) {
            return Err(io::Error::from(ErrorKind::TimedOut));
        }
        self.connection.stream.set_read_timeout(Some(left))
    }

    // A piece of a host has come.
    fn begin_turn(&mut self) {
        let Some(watch) = &self.connection.watch else {
            return;
        };
        if self.is_host && watch.counts_turns() {
            self.came = Instant::now(&self.rt).ok();
        }
    }

    // What was done with the last piece of a host is done.
    fn end_turn(&mut self) {
        let Some(came) = self.came.take() else {
            return;
        };
        if let (Some(watch), Ok(now)) = (&self.connection.watch, Instant::now(&self.rt)) {
            watch.count_turn(now.saturating_duration_since(came));
        }
    }
}

impl<R: Clock + Drop> Read for TcpEnd<R> {
    fn read(&mut self, into: &mut [u8]) -> io::Result<usize> {
        self.limit()?;
        self.end_turn();
        let count = (&self.connection.stream).read(into)?;
        self.begin_turn();
        Ok(count)
    }
}

/// The two ends of a connection, each for a thread of its own.
pub(crate) type Ends<R> = (StdSource<TcpEnd<R>>, TcpSink);

/// The ends of a connection that came, whose greeting has to be over in time.
pub(crate) fn ends_of_caller<R: Clock + Copy + Drop>(
    rt: &R,
    alloc: Global,
    stream: TcpStream,
    common: &Common,
) -> Option<Ends<R>> {
    let now = Instant::now(rt).ok()?;
    let until = now.checked_add(Duration::from_secs(GREETING))?;
    ends(*rt, alloc, stream, common, Some(until))
}

/// The ends of a connection to a host, which may say nothing for as long as it likes.
pub(crate) fn ends_of_host<R: Clock + Copy + Drop>(
    rt: &R,
    alloc: Global,
    stream: TcpStream,
    common: &Common,
) -> Option<Ends<R>> {
    ends(*rt, alloc, stream, common, None)
}

// The ends. What is written goes out at once; a write fails where nothing is taken for as long as the net allows.
fn ends<R: Clock + Drop>(
    rt: R,
    alloc: Global,
    stream: TcpStream,
    common: &Common,
    until: Option<Instant>,
) -> Option<Ends<R>> {
    stream.set_nodelay(true).ok()?;
    let limit = limit_of(common.silence);
    stream.set_write_timeout(limit).ok()?;
    let _ = keep(&stream, common.silence);
    let watch = match &common.watch {
        Some(watch) => Some(watch.another().ok()?),
        None => None,
    };
    let connection = Connection {
        stream,
        settled: AtomicBool::new(false),
        silence: limit,
        watch,
    };
    let connection = Arc::new(alloc, connection).ok()?;
    let sink = TcpSink::new(Arc::try_clone(&connection).ok()?);
    let end = TcpEnd {
        rt,
        connection,
        is_host: until.is_none(),
        until,
        came: None,
    };
    Some((StdSource::new(end), sink))
}

// So many seconds, of which 0 is no limit.
fn limit_of(seconds: u32) -> Option<Duration> {
    if seconds == 0 {
        None
    } else {
        Some(Duration::from_secs(u64::from(seconds)))
    }
}
