//! Dialing by TCP.

ghost use Rattle.std.specs.Prelude.{None};

use crate::common::Common;
use crate::connection::{Ends, TcpEnd, ends_of_host};
use crate::rules::Leave;
use crate::sink::TcpSink;
use crate::spares::is_want;
use gate_outside::{Counted, DialFault, Dialer, StdSource};
use std::alloc::Global;
use std::net::{IpAddr, SocketAddr, TcpListener, TcpStream, ToSocketAddrs};
use std::sync::{Arc, Wait};
use std::time::{Clock, Duration, Instant};
use std::{net, thread};

/// How long a dial may take once the name is looked up, in seconds, over all of its addresses (this project's own).
const DIAL: u64 = 10;

// How often a dial is tried again where no descriptor is free, and how long it pauses before, in milliseconds.
const TRIES: u32 = 500;

const PAUSE: u64 = 20;

/// Dials hosts by TCP, by name or address: where there are rules those that they allow, and never the net itself.
#[derive(Drop)]
pub struct TcpDialer<R> {
    rt: R,
    common: Arc<Common, Global>,
    faults: u64,
}

impl<R> TcpDialer<R> {
    // A dialer of a net.
    pub(crate) fn new(rt: R, common: Arc<Common, Global>) -> TcpDialer<R> {
        TcpDialer {
            rt,
            common,
            faults: 0,
        }
    }
}

impl<
    R: net::Net<Listener = TcpListener, Stream = TcpStream> + Clock + Wait + Copy + Drop,
> TcpDialer<R> {
    // The link to the host, if it may be dialed and can be reached.
    fn reach(&self, alloc: Global, host: &str, port: u16) -> Option<Ends<R>> {
        let leave = self.leave_of(host, port)?;
        let addresses = (host, port).to_socket_addrs(&self.rt).ok()?;
        let now = Instant::now(&self.rt).ok()?;
        let until = now.checked_add(Duration::from_secs(DIAL))?;
        for address in addresses {
            if let Some(ends) = self.reach_at(alloc, address, leave, until) {
                return Some(ends);
            }
        }
        None
    }

    // What is allowed before the name is looked up. Without rules each host counts as named.
    fn leave_of(&self, host: &str, port: u16) -> Option<Leave> {
        match &self.common.rules {
            Some(rules) => rules.before_look_up(host, port),
            None => Some(Leave::Named),
        }
    }

    // The link to one address.
    fn reach_at(
        &self,
        alloc: Global,
        address: SocketAddr,
        leave: Leave,
        until: Instant,
    ) -> Option<Ends<R>> {
        let named = leave == Leave::Named || self.names(address);
        if !named && !self.allows(address) {
            return None;
        }
        let stream = self.connect(&address, until)?;
        if self.is_barred(&stream, named) {
            return None;
        }
        ends_of_host(&self.rt, alloc, stream, &self.common)
    }

    // Whether a rule names the address.
    fn names(&self, address: SocketAddr) -> bool {
        match &self.common.rules {
            Some(rules) => rules.names(address.ip(), address.port()),
            None => true,
        }
    }

    // Whether a rule allows the address.
    fn allows(&self, address: SocketAddr) -> bool {
        match &self.common.rules {
            Some(rules) => rules.allow_address(address.ip(), address.port()),
            None => true,
        }
    }

    // Connects, and tries again where no descriptor is free.
    fn connect(&self, address: &SocketAddr, until: Instant) -> Option<TcpStream> {
        for _ in 0..TRIES {
            let left = until.saturating_duration_since(Instant::now(&self.rt).ok()?);
            if left < Duration::from_millis(1) {
                return None;
            }
            match TcpStream::connect_timeout(&self.rt, address, left) {
                Ok(stream) => return Some(stream),
                Err(error) if is_want(error.raw_os_error()) => self.make_room(),
                Err(_) => return None,
            }
        }
        None
    }

    // Gives up a descriptor in reserve, or waits for one.
    fn make_room(&self) {
        if !self.common.spares.give_up(&self.rt) {
            thread::sleep(&self.rt, Duration::from_millis(PAUSE));
        }
    }

    // Whether the peer is the net itself, or this machine where that isn't named.
    fn is_barred(&self, stream: &TcpStream, named: bool) -> bool {
        let (Ok(own), Ok(peer)) = (stream.local_addr(), stream.peer_addr()) else {
            return true;
        };
        is_one_machine(own.ip(), peer.ip()) && (!named || peer.port() == self.common.port)
    }
}

// Whether the two ends of a connection are on one machine: they are one address, or both are of the loopback, of which
// Linux has more than one (RFC 1122, section 3.2.1.3). It has no clause: whom a dialer reaches no clause tells, so none would
// cite it. A test has the pairs.
pub(crate) fn is_one_machine(own: IpAddr, peer: IpAddr) -> bool {
    let (own, peer) = (own.to_canonical(), peer.to_canonical());
    own == peer || (own.is_loopback() && peer.is_loopback())
}

impl<R: Drop> Counted for TcpDialer<R> {
    ghost helper = { λ s. record { dial_faults = s.faults; start_faults = 0; draws = None } };
}

impl<
    R: net::Net<Listener = TcpListener, Stream = TcpStream>
        + Clock
        + Wait
        + Copy
        + Send
        + Drop
        + 'static,
> Dialer for TcpDialer<R> {
    type Input = StdSource<TcpEnd<R>>;

    type Output = TcpSink;

    fn dial(
        &mut self,
        alloc: Global,
        host: &str,
        port: u16,
    ) -> Result<(StdSource<TcpEnd<R>>, TcpSink), DialFault> {
        match self.reach(alloc, host, port) {
            Some(ends) => Ok(ends),
            None => {
                self.faults = self.faults.saturating_add(1);
                Err(DialFault::Failed)
            }
        }
    }
}
