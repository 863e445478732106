//! What the viewers of a topic are shown.

use std::alloc::{AllocError, Global};
use std::sync::atomic::AtomicBool;
use std::sync::atomic::Ordering::SeqCst;
use std::sync::{Mutex, Wait};
use wake_spot::Spot;

/// What stands at the end of each text, as a client acknowledges it.
const SYNC: &[u8] = b"4.sync,1.1;";

/// A text, and how often it was acknowledged.
#[derive(Drop)]
struct Shown {
    text: Vec<u8>,
    acknowledged: u64,
}

/// A text that changes, and those who wait for it to.
#[derive(Drop)]
pub struct Topic {
    shown: Mutex<Shown>,
    news: Spot,
    ended: AtomicBool,
}

impl Topic {
    /// A topic that has shown nothing.
    pub fn new(alloc: Global) -> Topic {
        let shown = Shown {
            text: Vec::new(alloc),
            acknowledged: 0,
        };
        Topic {
            shown: Mutex::new(shown),
            news: Spot::new(),
            ended: AtomicBool::new(false),
        }
    }

    /// Shows so many bytes of the letter, and the sync behind them.
    pub fn show<R: Wait>(&self, rt: &R, letter: u8, bytes: u32) -> Result<(), AllocError> {
        let mut shown = self.shown.lock(rt);
        shown.text.clear();
        for _ in 0..bytes {
            shown.text.push(letter)?;
        }
        shown.text.extend_from_slice(SYNC)?;
        drop(shown);
        self.news.ring();
        Ok(())
    }

    /// Shows nothing more.
    pub fn end(&self) {
        self.ended.store(true, SeqCst);
        self.news.ring();
    }

    /// Waits until there is another text than the one behind so many rings, copies it, and gives the number of rings
    /// before that. None once nothing more is shown.
    pub fn next<R: Wait>(&self, rt: &R, seen: u64, into: &mut Vec<u8>) -> Option<u64> {
        for _ in rt.forever() {
            let rings = self.news.rings();
            if self.ended.load(SeqCst) {
                return None;
            }
            if rings != seen {
                let shown = self.shown.lock(rt);
                into.clear();
                into.extend_from_slice(&shown.text).ok()?;
                return Some(rings);
            }
            self.news.wait(rt, rings);
        }
        unreachable!()
    }

    /// Counts an acknowledgement.
    pub fn acknowledge<R: Wait>(&self, rt: &R) {
        let mut shown = self.shown.lock(rt);
        shown.acknowledged = shown.acknowledged.saturating_add(1);
    }

    /// How often was acknowledged.
    pub fn acknowledged<R: Wait>(&self, rt: &R) -> u64 {
        self.shown.lock(rt).acknowledged
    }
}
