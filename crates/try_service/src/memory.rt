//! A net in memory: connections whose bytes are given, a Telnet host that sends one letter and ends, jobs that run in
//! the call or in threads, a clock that stands at 0, and dice that count. One dial may fail, and one start of a job be
//! refused. Who gives bytes may wait for what others were given.

ghost use Rattle.std.specs.Prelude.{◌≡◌, ◌≤◌, None, length};

use anyhow::Result as Outcome;
use gate_model::NoMemory;
use gate_outside::{
    Clock, Counted, DialFault, Dialer, Dice, Failed, Helper, MemBell, Net, Sink, Source, Spawner,
    Way,
};
use std::alloc::Global;
use std::sync::atomic::AtomicU64;
use std::sync::atomic::Ordering::SeqCst;
use std::sync::{Arc, Mutex, Wait};
use std::thread;
use std::time::{Clock as Moments, Duration};

/// What a sink was given, for whoever looks at it.
pub type Given = Arc<Mutex<Vec<u8>>, Global>;

/// Where nothing is given yet.
pub fn nothing_given(alloc: Global) -> Outcome<Given> {
    Ok(Arc::new(alloc, Mutex::new(Vec::new(alloc)))?)
}

/// Where it is counted which moments don't come.
pub type Missed = Arc<AtomicU64, Global>;

/// Where none is counted yet.
pub fn none_missed(alloc: Global) -> Outcome<Missed> {
    Ok(Arc::new(alloc, AtomicU64::new(0))?)
}

/// The beginning of a sync, with which a picture and each frame end.
pub const SYNC: &[u8] = b"4.sync,";

/// What says that a write is held.
pub const HELD: &[u8] = b"held";

/// The last instruction that a viewer is given.
pub const LAST: &[u8] = b"10.disconnect;";

// How often a source looks whether it ends, and how long it sleeps before, in milliseconds.
const LOOKS: u64 = 3_000;

const PAUSE: u64 = 10;

/// Gives its bytes, and ends; it may wait before either.
#[derive(Drop)]
pub struct RowSource<R> {
    rt: R,
    bytes: Vec<u8>,
    at: usize,
    first: Option<Moment>,
    last: Option<Moment>,
}

/// Keeps what it is given. It may wait before the first write after a picture.
#[derive(Drop)]
pub struct RowSink<R> {
    rt: R,
    given: Given,
    hold: Option<Hold>,
    faults: u64,
}

/// The moment at which a sink was given a text; and where it is counted if it doesn't come.
#[derive(Drop)]
pub struct Moment {
    given: Given,
    text: &'static [u8],
    missed: Missed,
}

/// How a write waits: it says so in the one place, and waits for the other.
#[derive(Drop)]
pub struct Hold {
    pub said: Given,
    pub until: Moment,
}

impl Moment {
    /// The moment at which the sink was given the text.
    pub fn new(given: &Given, text: &'static [u8], missed: &Missed) -> Outcome<Moment> {
        let given = Arc::try_clone(given)?;
        let missed = Arc::try_clone(missed)?;
        Ok(Moment {
            given,
            text,
            missed,
        })
    }

    fn another(&self) -> Result<Moment, NoMemory> {
        let given = Arc::try_clone(&self.given)?;
        let missed = Arc::try_clone(&self.missed)?;
        Ok(Moment {
            given,
            text: self.text,
            missed,
        })
    }

    fn is_past<R: Wait>(&self, rt: &R) -> bool {
        has(self.given.lock(rt).as_slice(), self.text)
    }

    fn wait<R: Moments + Wait>(&self, rt: &R) {
        for _ in 0..LOOKS {
            if self.is_past(rt) {
                return;
            }
            thread::sleep(rt, Duration::from_millis(PAUSE));
        }
        self.missed.fetch_add(1, SeqCst);
    }
}

impl<R: Moments + Wait> RowSource<R> {
    fn await_first(&mut self) {
        if let Some(first) = self.first.take() {
            first.wait(&self.rt);
        }
    }

    fn await_last(&self) {
        if let Some(last) = &self.last {
            last.wait(&self.rt);
        }
    }
}

impl<R: Moments + Wait + Drop> Source for RowSource<R> {
    ghost left = { λ _. None };

    ghost faults = { λ _. 0 };

    fn read(&mut self, into: &mut [u8]) -> Result<usize, Failed> {
        self.await_first();
        let count = copy_from(&self.bytes, self.at, into);
        self.at = self.at.saturating_add(count);
        if count == 0 {
            self.await_last();
        }
        Ok(count)
    }
}

// Copies the bytes from a place on, as many as there are and fit, and answers how many.
fn copy_from(bytes: &[u8], at: usize, into: &mut [u8]) -> usize
    ensures { result ≤ length into.old }
{
    let count = bytes.len().saturating_sub(at).min(into.len());
    for (to, from) in into.iter_mut().zip(bytes.iter().skip(at)) {
        *to = *from;
    }
    count
}

// Whether the text is in what was given.
fn has(given: &[u8], text: &[u8]) -> bool {
    given
        .windows(text.len().max(1))
        .any(|window| window == text)
}

impl<R: Moments + Wait> RowSink<R> {
    // Says that it holds a write, where it is the first after a picture, and waits.
    fn await_hold(&mut self)
        ensures { self.new.faults ≡ self.old.faults }
    {
        if !has(self.given.lock(&self.rt).as_slice(), SYNC) {
            return;
        }
        if let Some(hold) = self.hold.take() {
            hold.wait(&self.rt);
        }
    }
}

impl Hold {
    fn wait<R: Moments + Wait>(&self, rt: &R) {
        let _ = self.said.lock(rt).extend_from_slice(HELD);
        self.until.wait(rt);
    }
}

impl<R: Moments + Wait + Drop> Sink for RowSink<R> {
    ghost written = { λ _. None };

    ghost faults = { λ s. s.faults };

    fn write(&mut self, piece: &[u8]) -> Result<usize, Failed> {
        self.await_hold();
        let mut given = self.given.lock(&self.rt);
        if given.extend_from_slice(piece).is_ok() {
            return Ok(piece.len());
        }
        self.faults = self.faults.saturating_add(1);
        Err(Failed)
    }

    fn finish(&mut self) {}
}

/// Which dial fails, and which start of a job is refused, counted from 1 over a whole service; 0 for none.
#[derive(Clone, Copy)]
pub struct Faults {
    pub dial: u64,
    pub start: u64,
}

/// How many dials and starts of jobs there were, and how many bytes were drawn.
#[derive(Drop)]
struct Counts {
    dials: AtomicU64,
    starts: AtomicU64,
    drawn: AtomicU64,
}

/// What the connections of a net share: when its Telnet host sends and when it ends, whether its jobs run in threads,
/// which calls fail, and what is counted.
#[derive(Drop)]
struct Common {
    first: Option<Moment>,
    last: Option<Moment>,
    threads: bool,
    faults: Faults,
    counts: Arc<Counts, Global>,
}

impl Counts {
    fn new() -> Counts {
        Counts {
            dials: AtomicU64::new(0),
            starts: AtomicU64::new(0),
            drawn: AtomicU64::new(0),
        }
    }
}

impl Common {
    fn another(&self) -> Result<Common, NoMemory> {
        let first = another(&self.first)?;
        let last = another(&self.last)?;
        Ok(Common {
            first,
            last,
            threads: self.threads,
            faults: self.faults,
            counts: Arc::try_clone(&self.counts)?,
        })
    }

    // Counts a dial, and answers whether it is the one that fails.
    fn dial_fails(&self) -> bool {
        let before = self.counts.dials.fetch_add(1, SeqCst);
        before.saturating_add(1) == self.faults.dial
    }

    // Counts a start of a job, and answers whether it is the one that is refused.
    fn start_is_refused(&self) -> bool {
        let before = self.counts.starts.fetch_add(1, SeqCst);
        before.saturating_add(1) == self.faults.start
    }
}

fn another(moment: &Option<Moment>) -> Result<Option<Moment>, NoMemory> {
    match moment {
        Some(moment) => Ok(Some(moment.another()?)),
        None => Ok(None),
    }
}

/// Dials the host, runs jobs in the call or in threads, and draws.
#[derive(Drop)]
pub struct RowHelper<R> {
    rt: R,
    common: Common,
    undialed: u64,
    refused: u64,
}

impl<R: Copy> RowHelper<R> {
    // What the host sends.
    fn host(&self, alloc: Global) -> Result<RowSource<R>, NoMemory> {
        let first = another(&self.common.first)?;
        let last = another(&self.common.last)?;
        let mut bytes = Vec::new(alloc);
        bytes.push(b'A')?;
        Ok(RowSource {
            rt: self.rt,
            bytes,
            at: 0,
            first,
            last,
        })
    }

    // Where goes what it is sent.
    fn hole(&self, alloc: Global) -> Result<RowSink<R>, NoMemory> {
        Ok(RowSink {
            rt: self.rt,
            given: Arc::new(alloc, Mutex::new(Vec::new(alloc)))?,
            hold: None,
            faults: 0,
        })
    }
}

impl<R: Drop> Counted for RowHelper<R> {
    ghost helper = { λ s. record { dial_faults = s.undialed; start_faults = s.refused; draws = None } };
}

impl<R: Moments + Wait + Copy + Send + Drop + 'static> Dialer for RowHelper<R> {
    type Input = RowSource<R>;

    type Output = RowSink<R>;

    fn dial(
        &mut self,
        alloc: Global,
        _host: &str,
        _port: u16,
    ) -> Result<(RowSource<R>, RowSink<R>), DialFault> {
        if self.common.dial_fails() {
            self.undialed = self.undialed.saturating_add(1);
            return Err(DialFault::Failed);
        }
        Ok((self.host(alloc)?, self.hole(alloc)?))
    }
}

impl<R: Drop> Spawner for RowHelper<R> {
    ghost refuses = { λ _. None };

    fn way(&mut self) -> Way {
        if self.common.start_is_refused() {
            Way::Refused
        } else if self.common.threads {
            Way::Thread
        } else {
            Way::Here
        }
    }

    fn note(&mut self) {
        self.refused = self.refused.saturating_add(1);
    }
}

impl<R: Drop> Clock for RowHelper<R> {
    fn now(&mut self) -> u64 {
        0
    }
}

impl<R: Drop> Dice for RowHelper<R> {
    fn bytes(&mut self) -> [u8; 16] {
        let mut bytes = [0u8; 16];
        for byte in bytes.iter_mut() {
            *byte = (self.common.counts.drawn.fetch_add(1, SeqCst) & 0xff) as u8;
        }
        bytes
    }
}

impl<R: Moments + Wait + Copy + Send + Drop + 'static> Helper for RowHelper<R> {
    fn another(&mut self, _alloc: Global) -> Result<RowHelper<R>, NoMemory> {
        Ok(RowHelper {
            rt: self.rt,
            common: self.common.another()?,
            undialed: 0,
            refused: 0,
        })
    }
}

/// Gives its connections in order, waits for moments if it is to, and then fails.
#[derive(Drop)]
pub struct RowNet<R> {
    rt: R,
    common: Common,
    // The last comes first.
    links: Vec<(RowSource<R>, RowSink<R>)>,
    moments: Vec<Moment>,
    faults: u64,
}

impl<R: Copy> RowNet<R> {
    /// A net without connections, whose jobs run in the call.
    pub fn new(rt: R, alloc: Global) -> Outcome<RowNet<R>> {
        Ok(RowNet {
            rt,
            common: Common {
                first: None,
                last: None,
                threads: false,
                faults: Faults { dial: 0, start: 0 },
                counts: Arc::new(alloc, Counts::new())?,
            },
            links: Vec::new(alloc),
            moments: Vec::new(alloc),
            faults: 0,
        })
    }

    /// From now on its jobs run in threads, and its hosts send and end at these moments.
    pub fn run_in_threads(&mut self, first: Moment, last: Moment) {
        self.common.first = Some(first);
        self.common.last = Some(last);
        self.common.threads = true;
    }

    /// From now on this dial fails, and this start is refused.
    pub fn fail(&mut self, faults: Faults) {
        self.common.faults = faults;
    }

    /// It waits for this moment too before it fails.
    pub fn wait_for(&mut self, moment: Moment) -> Outcome<()> {
        self.moments.push(moment)?;
        Ok(())
    }

    /// Adds a connection before all others.
    pub fn precede(&mut self, source: RowSource<R>, sink: RowSink<R>) -> Outcome<()> {
        self.links.push((source, sink))?;
        Ok(())
    }
}

impl<R: Drop> RowSource<R> {
    /// A client that sends these bytes and ends, each at its moment.
    pub fn new(
        rt: R,
        alloc: Global,
        text: &[u8],
        first: Option<Moment>,
        last: Option<Moment>,
    ) -> Outcome<RowSource<R>> {
        let mut bytes = Vec::new(alloc);
        bytes.extend_from_slice(text)?;
        Ok(RowSource {
            rt,
            bytes,
            at: 0,
            first,
            last,
        })
    }
}

impl<R: Drop> RowSink<R> {
    /// Where a client is given what it is written.
    pub fn new(rt: R, given: &Given, hold: Option<Hold>) -> Outcome<RowSink<R>> {
        Ok(RowSink {
            rt,
            given: Arc::try_clone(given)?,
            hold,
            faults: 0,
        })
    }
}

impl<R: Moments + Wait + Copy + Send + Drop + 'static> Net for RowNet<R> {
    type Help = RowHelper<R>;

    type Chime = MemBell;

    ghost net_faults = { λ s. s.faults };

    fn listen(&mut self, _alloc: Global, _port: u16, _seed: [u8; 32]) -> Result<(), DialFault> {
        Ok(())
    }

    fn accept<Q: Wait>(&mut self, _rt: &Q) -> Result<(RowSource<R>, RowSink<R>), Failed> {
        match self.links.pop() {
            Some(link) => Ok(link),
            None => {
                for moment in &self.moments {
                    moment.wait(&self.rt);
                }
                self.faults = self.faults.saturating_add(1);
                Err(Failed)
            }
        }
    }

    fn helper(&mut self, _alloc: Global) -> Result<RowHelper<R>, NoMemory> {
        Ok(RowHelper {
            rt: self.rt,
            common: self.common.another()?,
            undialed: 0,
            refused: 0,
        })
    }

    fn bell(&mut self, _alloc: Global) -> Result<MemBell, NoMemory> {
        Ok(MemBell::new())
    }
}
