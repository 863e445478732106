//! The calls of a desk behind a mutex of std.

use crate::sessions::desk;
use crate::timed::{Hand, PIECE, Rates, Timed, measured};
use anyhow::{Result, bail};
use gate_model::Asked;
use shared_desk::Desk;
use std::alloc::Global;
use std::sync::{Arc, Mutex, Wait};
use std::thread::Threads;
use std::time::Clock;

/// What feeds, or reads for a viewer.
#[derive(Drop)]
pub struct BareHand {
    desk: Arc<Mutex<Desk>, Global>,
    viewer: Option<u32>,
    text: Vec<u8>,
}

impl Hand for BareHand {
    fn call<R: Wait>(&mut self, rt: &R, alloc: Global) {
        match self.viewer {
            None => {
                let _ = self.desk.lock(rt).feed(alloc, PIECE, 0);
            }
            Some(viewer) => {
                self.text.clear();
                let _ = self.desk.lock(rt).read(viewer, &mut self.text);
            }
        }
    }
}

/// One thread feeds and so many read, for so many microseconds.
pub fn measure<R: Threads + Wait + Clock + Sync>(
    rt: &R,
    alloc: Global,
    readers: u32,
    micros: u32,
) -> Result<Rates> {
    let mut hands = hands(alloc, readers)?;
    measured(rt, alloc, &mut hands, micros)
}

// One that feeds, and so many that read.
fn hands(alloc: Global, readers: u32) -> Result<Vec<Timed<BareHand>>> {
    let mut desk = desk(alloc)?;
    let mut viewers = Vec::new(alloc);
    viewers.push(None)?;
    for _ in 0..readers {
        viewers.push(Some(joined(alloc, &mut desk)?))?;
    }
    let desk = Arc::new(alloc, Mutex::new(desk))?;
    let mut hands = Vec::new(alloc);
    for viewer in viewers {
        hands.push(Timed::new(BareHand {
            desk: Arc::try_clone(&desk)?,
            viewer,
            text: Vec::new(alloc),
        }))?;
    }
    Ok(hands)
}

// A recorder that joins, which need acknowledge nothing.
fn joined(alloc: Global, desk: &mut Desk) -> Result<u32> {
    let mut text = Vec::new(alloc);
    match desk.join(Asked::Keep, &mut text) {
        Ok(joined) => Ok(joined.viewer),
        Err(_) => bail!("not joined"),
    }
}
