//! The calls of passes.

use crate::sessions::opened;
use crate::timed::{Hand, PIECE, Rates, Timed, measured};
use anyhow::{Result, bail};
use gate_model::Asked;
use shared_desk::{HostPass, LinkPass, ReaderPass};
use std::alloc::Global;
use std::sync::Wait;
use std::thread::Threads;
use std::time::Clock;

/// A thread's pass. A reader's text is let go of before each read.
#[derive(Drop)]
pub enum PassHand {
    Feeder(LinkPass),
    Reader(ReaderPass, Vec<u8>),
}

impl Hand for PassHand {
    fn call<R: Wait>(&mut self, rt: &R, alloc: Global) {
        match self {
            PassHand::Feeder(pass) => {
                let _ = pass.feed(rt, alloc, PIECE, 0);
            }
            PassHand::Reader(pass, text) => {
                text.clear();
                let _ = pass.read(rt, text);
            }
        }
    }
}

/// One thread feeds and so many read, for so many microseconds.
pub fn measure<R: Threads + Wait + Clock + Sync>(
    rt: &R,
    alloc: Global,
    readers: u32,
    micros: u32,
) -> Result<Rates> {
    let mut hands = hands(rt, alloc, readers)?;
    measured(rt, alloc, &mut hands, micros)
}

// One that feeds, and so many that read.
fn hands<R: Wait>(rt: &R, alloc: Global, readers: u32) -> Result<Vec<Timed<PassHand>>> {
    let mut host = opened(alloc)?;
    let Some((link, _sender)) = host.link() else {
        bail!("no link");
    };
    let mut hands = Vec::new(alloc);
    hands.push(Timed::new(PassHand::Feeder(link)))?;
    for _ in 0..readers {
        hands.push(Timed::new(reader(rt, alloc, &mut host)?))?;
    }
    Ok(hands)
}

// A recorder, which need acknowledge nothing.
fn reader<R: Wait>(rt: &R, alloc: Global, host: &mut HostPass) -> Result<PassHand> {
    let mut text = Vec::new(alloc);
    match host.join(rt, Asked::Keep, &mut text) {
        Ok(place) => Ok(PassHand::Reader(place.reader, text)),
        Err(_) => bail!("not joined"),
    }
}
