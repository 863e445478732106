//! A helper whose first link is counted.

use crate::{Traffic, TrafficSink, TrafficSource};
use gate_model::NoMemory;
use gate_outside::{Clock, Counted, DialFault, Dialer, Dice, Helper, Spawner, Way};
use std::alloc::Global;

/// A helper that counts what its first link carries, which is that of a session to its host; a later one, as that to a
/// recorder, isn't counted. It tells what the inner one tells.
#[derive(Drop)]
pub struct TrafficHelper<H> {
    helper: H,
    traffic: Traffic,
    dialed: bool,
}

impl<H: Helper> TrafficHelper<H> {
    /// A helper that has dialed nothing yet.
    pub fn new(helper: H, traffic: Traffic) -> TrafficHelper<H> {
        TrafficHelper {
            helper,
            traffic,
            dialed: false,
        }
    }
}

// The counts for an end of a link, where it is the first that is dialed.
fn counts_of(traffic: &Traffic, dialed: bool) -> Result<Option<Traffic>, NoMemory> {
    if dialed {
        return Ok(None);
    }
    Ok(Some(traffic.another()?))
}

impl<H: Helper> Counted for TrafficHelper<H> {
    ghost helper = { λ h. H.helper h.helper };
}

impl<H: Helper> Dialer for TrafficHelper<H> {
    type Input = TrafficSource<H::Input>;

    type Output = TrafficSink<H::Output>;

    fn dial(
        &mut self,
        alloc: Global,
        host: &str,
        port: u16,
    ) -> Result<(TrafficSource<H::Input>, TrafficSink<H::Output>), DialFault> {
        let (source, sink) = self.helper.dial(alloc, host, port)?;
        let source = TrafficSource::new(source, counts_of(&self.traffic, self.dialed)?);
        let sink = TrafficSink::new(sink, counts_of(&self.traffic, self.dialed)?);
        self.dialed = true;
        Ok((source, sink))
    }
}

impl<H: Helper> Spawner for TrafficHelper<H> {
    ghost refuses = { λ h. H.refuses h.helper };

    fn way(&mut self) -> Way {
        self.helper.way()
    }

    fn note(&mut self) {
        self.helper.note();
    }
}

impl<H: Helper> Clock for TrafficHelper<H> {
    fn now(&mut self) -> u64 {
        self.helper.now()
    }
}

impl<H: Helper> Dice for TrafficHelper<H> {
    fn bytes(&mut self) -> [u8; 16] {
        self.helper.bytes()
    }
}

impl<H: Helper> Helper for TrafficHelper<H> {
    fn another(&mut self, alloc: Global) -> Result<TrafficHelper<H>, NoMemory> {
        let helper = self.helper.another(alloc)?;
        Ok(TrafficHelper {
            helper,
            traffic: self.traffic.another()?,
            dialed: true,
        })
    }
}
