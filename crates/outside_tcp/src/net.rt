//! Connections by TCP.

ghost use Rattle.std.specs.Prelude.{◌≡◌};

use crate::common::Common;
use crate::connection::{Ends, TcpEnd, ends_of_caller};
use crate::helper::TcpHelper;
use crate::sink::TcpSink;
use crate::spares::{Spares, is_want};
use crate::turning_away::turn_away;
use crate::{Limits, ParkBell, Watch};
use gate_model::NoMemory;
use gate_outside::{Bell, DialFault, Failed, Net, StdSource};
use std::alloc::Global;
use std::net::{IpAddr, TcpListener, TcpStream};
use std::os::fd::AsRawFd;
use std::sync::atomic::AtomicU64;
use std::sync::{Arc, Wait};
use std::time::{Clock, Duration};
use std::{mem, net, thread};

// How long `accept` pauses before it tries again, in milliseconds.
const PAUSE: u64 = 20;

// The numbers of the faults of `accept` at which the listener itself is broken: EBADF, EINVAL, ENOTSOCK and EOPNOTSUPP
// (accept(2)).
const BROKEN: [i32; 4] = [9, 22, 88, 95];

// What a net has once it listens.
#[derive(Drop)]
struct Listening {
    alloc: Global,
    listener: TcpListener,
    common: Arc<Common, Global>,
    bell: ParkBell,
}

/// The system's TCP at one address of this machine.
#[derive(Drop)]
pub struct TcpNet<R> {
    rt: R,
    address: IpAddr,
    limits: Limits,
    watch: Option<Watch>,
    listening: Option<Listening>,
    faults: u64,
}

impl<R> TcpNet<R> {
    /// A net that is to listen at the address.
    pub fn new(rt: R, address: IpAddr) -> TcpNet<R> {
        TcpNet {
            rt,
            address,
            limits: Limits::none(),
            watch: None,
            listening: None,
            faults: 0,
        }
    }

    /// The same with limits, and watched.
    pub fn within(rt: R, address: IpAddr, limits: Limits, watch: Watch) -> TcpNet<R> {
        TcpNet {
            rt,
            address,
            limits,
            watch: Some(watch),
            listening: None,
            faults: 0,
        }
    }
}

// What a call of the system's `accept` came to.
#[derive(Drop)]
enum Came<R> {
    Ends(Ends<R>),
    // Who came is gone or was turned away.
    Nobody,
    // Nobody could be let in.
    Fault,
    // The listener is broken.
    Broken,
}

impl Listening {
    // Waits for the next connection.
    fn next<R: Clock + Copy + Drop, Q: Wait>(
        &self,
        clock: &R,
        rt: &Q,
        watch: &Option<Watch>,
    ) -> Came<R> {
        match self.listener.accept() {
            Ok((stream, _peer)) => self.admit(clock, rt, watch, stream),
            Err(error) => self.missed(rt, watch, error.raw_os_error()),
        }
    }

    // Lets a connection in, where enough descriptors stay free for what it may dial.
    fn admit<R: Clock + Copy + Drop, Q: Wait>(
        &self,
        clock: &R,
        rt: &Q,
        watch: &Option<Watch>,
        stream: TcpStream,
    ) -> Came<R> {
        if !self.common.spares.fill(rt, &self.listener) {
            count_refused(watch);
            turn_away(stream);
            return Came::Nobody;
        }
        match ends_of_caller(clock, self.alloc, stream, &self.common) {
            Some(ends) => Came::Ends(ends),
            None => Came::Fault,
        }
    }

    // What a fault of `accept` comes to. Where no descriptor is free, one in reserve is given up for who comes next.
    fn missed<R, Q: Wait>(&self, rt: &Q, watch: &Option<Watch>, code: Option<i32>) -> Came<R> {
        if code.is_some_and(|code| BROKEN.contains(&code)) {
            tell_fault(watch, code);
            return Came::Broken;
        }
        if is_want(code) && self.common.spares.give_up(rt) {
            return Came::Nobody;
        }
        if is_want(code) {
            count_refused(watch);
        }
        Came::Fault
    }
}

// The net ends by this fault.
fn tell_fault(watch: &Option<Watch>, code: Option<i32>) {
    if let Some(watch) = watch {
        watch.fails(code);
    }
}

// Nobody could be let in.
fn count_refused(watch: &Option<Watch>) {
    if let Some(watch) = watch {
        watch.count_refused();
    }
}

impl<
    R: net::Net<Listener = TcpListener, Stream = TcpStream>
        + Clock
        + Wait
        + Copy
        + Send
        + Drop
        + 'static,
> Net for TcpNet<R> {
    type Help = TcpHelper<R>;

    type Chime = ParkBell;

    ghost net_faults = { λ s. s.faults };

    fn listen(&mut self, alloc: Global, port: u16, seed: [u8; 32]) -> Result<(), DialFault> {
        let Limits { silence, rules } = mem::replace(&mut self.limits, Limits::none());
        let watch = match &self.watch {
            Some(watch) => Some(watch.another()?),
            None => None,
        };
        let common = Common {
            seed,
            made: AtomicU64::new(0),
            port,
            silence,
            rules,
            spares: Spares::new(alloc),
            watch,
        };
        let Ok(common) = Arc::new(alloc, common) else {
            return Err(DialFault::NoMemory);
        };
        let bell = ParkBell::new(alloc)?;
        match TcpListener::bind(&self.rt, (self.address, port)) {
            Ok(listener) => {
                if let Some(watch) = &self.watch {
                    watch.listens(listener.as_raw_fd());
                }
                self.listening = Some(Listening {
                    alloc,
                    listener,
                    common,
                    bell,
                });
                Ok(())
            }
            Err(error) => {
                tell_fault(&self.watch, error.raw_os_error());
                self.faults = self.faults.saturating_add(1);
                Err(DialFault::Failed)
            }
        }
    }

    /// Goes on where one connection failed, or descriptors or memory are wanting, with a pause before it tries again.
    /// Who comes while no descriptor is free is told so. A fault comes only where the listener is broken, or was told
    /// to end (this project's own).
    fn accept<Q: Wait>(&mut self, rt: &Q) -> Result<(StdSource<TcpEnd<R>>, TcpSink), Failed> {
        if let Some(listening) = &self.listening {
            for _ in rt.forever() {
                match listening.next(&self.rt, rt, &self.watch) {
                    Came::Ends(ends) => return Ok(ends),
                    Came::Nobody => {}
                    Came::Fault => thread::sleep(&self.rt, Duration::from_millis(PAUSE)),
                    Came::Broken => break,
                }
            }
        }
        self.faults = self.faults.saturating_add(1);
        Err(Failed)
    }

    fn helper(&mut self, _alloc: Global) -> Result<TcpHelper<R>, NoMemory> {
        match &self.listening {
            Some(listening) => TcpHelper::new(self.rt, &listening.common),
            None => Err(NoMemory),
        }
    }

    fn bell(&mut self, alloc: Global) -> Result<ParkBell, NoMemory> {
        match &self.listening {
            Some(listening) => listening.bell.another(alloc),
            None => Err(NoMemory),
        }
    }
}
