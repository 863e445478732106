//! The helper of one connection.

ghost use Rattle.std.specs.Prelude.{None};

use crate::common::Common;
use crate::connection::TcpEnd;
use crate::sink::TcpSink;
use crate::{ChaChaDice, CountClock, TcpDialer, ThreadSpawner};
use gate_model::NoMemory;
use gate_outside::{Clock, Counted, DialFault, Dialer, Dice, Helper, Spawner, StdSource, Way};
use std::alloc::Global;
use std::net::{TcpListener, TcpStream};
use std::sync::{Arc, Wait};
use std::{net, time};

/// A helper that dials by TCP and starts threads. The dice of the helpers of one net have the streams 0, 1, 2
/// and so on of its seed, in the order in which they are made.
#[derive(Drop)]
pub struct TcpHelper<R> {
    rt: R,
    common: Arc<Common, Global>,
    dialer: TcpDialer<R>,
    spawner: ThreadSpawner,
    clock: CountClock,
    dice: ChaChaDice,
}

impl<R: Copy> TcpHelper<R> {
    pub(crate) fn new(rt: R, common: &Arc<Common, Global>) -> Result<TcpHelper<R>, NoMemory> {
        let dialer = TcpDialer::new(rt, Arc::try_clone(common)?);
        let common = Arc::try_clone(common)?;
        let dice = common.dice();
        Ok(TcpHelper {
            rt,
            common,
            dialer,
            spawner: ThreadSpawner::new(),
            clock: CountClock::new(),
            dice,
        })
    }
}

impl<R: Drop> Counted for TcpHelper<R> {
    ghost helper = { λ s. record { dial_faults = (⟦<TcpDialer<R> as Counted>⟧.helper s.dialer).dial_faults; start_faults = (⟦<ThreadSpawner as Counted>⟧.helper s.spawner).start_faults; draws = None } };
}

impl<
    R: net::Net<Listener = TcpListener, Stream = TcpStream>
        + time::Clock
        + Wait
        + Copy
        + Send
        + Drop
        + 'static,
> Dialer for TcpHelper<R> {
    type Input = StdSource<TcpEnd<R>>;

    type Output = TcpSink;

    fn dial(
        &mut self,
        alloc: Global,
        host: &str,
        port: u16,
    ) -> Result<(StdSource<TcpEnd<R>>, TcpSink), DialFault> {
        self.dialer.dial(alloc, host, port)
    }
}

impl<R: Drop> Spawner for TcpHelper<R> {
    ghost refuses = { λ _. None };

    fn way(&mut self) -> Way {
        self.spawner.way()
    }

    fn note(&mut self) {
        self.spawner.note();
    }
}

impl<R: Drop> Clock for TcpHelper<R> {
    fn now(&mut self) -> u64 {
        self.clock.now()
    }
}

impl<R: Drop> Dice for TcpHelper<R> {
    fn bytes(&mut self) -> [u8; 16] {
        self.dice.bytes()
    }
}

impl<
    R: net::Net<Listener = TcpListener, Stream = TcpStream>
        + time::Clock
        + Wait
        + Copy
        + Send
        + Drop
        + 'static,
> Helper for TcpHelper<R> {
    fn another(&mut self, _alloc: Global) -> Result<TcpHelper<R>, NoMemory> {
        TcpHelper::new(self.rt, &self.common)
    }
}
