//! A viewer that lags is given one whole picture, and time to draw it.

use crate::links::sink;
use anyhow::{Context, Result, bail};
use gate_model::{Asked, Cause, NoMemory};
use gate_outside::Bell;
use shared_desk::{LinkPass, Place};
use std::alloc::Global;
use std::sync::atomic::AtomicU64;
use std::sync::atomic::Ordering::SeqCst;
use std::sync::{Arc, Mutex, Wait};
use std::time::Duration;
use try_sessions::{Screen, joined, opened};
use user_serve::outlet;
use wake_spot::Spot;

// The most bytes of a sink.
const ROOM: usize = 1_048_576;

// More feeds than frames are kept.
const FEEDS: u64 = 300;

// A bell that closes its session where it is waited for, and counts the waits that have a limit.
#[derive(Drop)]
struct PacingBell {
    link: Arc<Mutex<LinkPass>, Global>,
    paced: Arc<AtomicU64, Global>,
}

impl PacingBell {
    fn new(alloc: Global, link: LinkPass) -> Result<PacingBell> {
        Ok(PacingBell {
            link: Arc::new(alloc, Mutex::new(link))?,
            paced: Arc::new(alloc, AtomicU64::new(0))?,
        })
    }
}

impl Bell for PacingBell {
    fn ring(&self) {}

    fn wait<R: Wait>(&self, rt: &R) {
        let _ = self.link.lock(rt).close(rt, Cause::ServerEnd);
    }

    fn another(&self, _alloc: Global) -> Result<PacingBell, NoMemory> {
        Ok(PacingBell {
            link: Arc::try_clone(&self.link)?,
            paced: Arc::try_clone(&self.paced)?,
        })
    }

    fn wait_at_most<R: Wait>(&self, rt: &R, _spot: &Spot, _seen: u64, _most: Duration) -> bool {
        self.paced.fetch_add(1, SeqCst);
        self.wait(rt);
        true
    }
}

/// A viewer that lacks more frames than are kept, and acknowledged the stamp before or never anything: how its outlet
/// ends, and how often it was given time to draw a picture.
pub fn lagging<R: Wait>(rt: &R, alloc: Global, acknowledged: u64) -> Result<String> {
    let mut host = opened(alloc, Screen::Small)?;
    let Ok((place, first)) = joined(rt, alloc, &mut host, Asked::Owner) else {
        bail!("not joined");
    };
    let Place {
        mut reader,
        writer: _,
        role: _,
    } = place;
    let (mut link, _sending) = host.link().context("no link")?;
    reader.spots().tell_drawn(reader.viewer(), acknowledged);
    for moment in 0..FEEDS {
        if link.feed(rt, alloc, b"a", 1_000 + moment).is_err() {
            bail!("not fed");
        }
    }
    let bell = PacingBell::new(alloc, link)?;
    let mut sink = sink(alloc, ROOM, ROOM, 0)?;
    let end = outlet(rt, alloc, &mut reader, &first, &mut sink, &bell);
    let paced = bell.paced.load(SeqCst);
    Ok(format!(in alloc; "{end:?}, given time {paced} times")?)
}
