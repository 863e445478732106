//! A net that can be stopped.

use gate_model::NoMemory;
use gate_outside::{DialFault, Dialer, Failed, Net};
use std::alloc::Global;
use std::sync::atomic::AtomicBool;
use std::sync::atomic::Ordering::SeqCst;
use std::sync::{Arc, Wait};

/// A net whose `accept` fails once it is stopped, at the connection that comes then.
#[derive(Drop)]
pub struct Stoppable<N> {
    net: N,
    stopped: Arc<AtomicBool, Global>,
    faults: u64,
}

impl<N> Stoppable<N> {
    /// A net over this one.
    pub fn new(net: N, stopped: Arc<AtomicBool, Global>) -> Stoppable<N> {
        Stoppable {
            net,
            stopped,
            faults: 0,
        }
    }
}

impl<N: Net> Net for Stoppable<N> {
    type Help = N::Help;

    type Chime = N::Chime;

    ghost net_faults = { λ s. s.faults };

    fn listen(&mut self, alloc: Global, port: u16, seed: [u8; 32]) -> Result<(), DialFault> {
        let listened = self.net.listen(alloc, port, seed);
        if listened.is_err() {
            self.faults = self.faults.saturating_add(1);
        }
        listened
    }

    fn accept<R: Wait>(
        &mut self,
        rt: &R,
    ) -> Result<(<N::Help as Dialer>::Input, <N::Help as Dialer>::Output), Failed> {
        if let Ok(link) = self.net.accept(rt) {
            if !self.stopped.load(SeqCst) {
                return Ok(link);
            }
        }
        self.faults = self.faults.saturating_add(1);
        Err(Failed)
    }

    fn helper(&mut self, alloc: Global) -> Result<N::Help, NoMemory> {
        self.net.helper(alloc)
    }

    fn bell(&mut self, alloc: Global) -> Result<N::Chime, NoMemory> {
        self.net.bell(alloc)
    }
}
