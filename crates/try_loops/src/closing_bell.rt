//! A bell that closes a session.

use anyhow::Result;
use gate_model::{Cause, NoMemory};
use gate_outside::Bell;
use shared_desk::LinkPass;
use std::alloc::Global;
use std::sync::{Arc, Mutex, Wait};

/// A bell that closes its session where it is waited for, as at the end of its link, and returns at once.
#[derive(Drop)]
pub struct ClosingBell {
    link: Arc<Mutex<LinkPass>, Global>,
}

impl ClosingBell {
    /// A bell of the session of this pass.
    pub fn new(alloc: Global, link: LinkPass) -> Result<ClosingBell> {
        Ok(ClosingBell {
            link: Arc::new(alloc, Mutex::new(link))?,
        })
    }
}

impl Bell for ClosingBell {
    fn ring(&self) {}

    fn wait<R: Wait>(&self, rt: &R) {
        let _ = self.link.lock(rt).close(rt, Cause::ServerEnd);
    }

    fn another(&self, _alloc: Global) -> Result<ClosingBell, NoMemory> {
        Ok(ClosingBell {
            link: Arc::try_clone(&self.link)?,
        })
    }
}
