//! A session and its host.

use anyhow::{Context, Result, bail};
use gate_model::{Asked, Cause, Share};
use shared_desk::{HostPass, LinkPass, SenderPass};
use std::alloc::Global;
use std::sync::Wait;
use try_sessions::{Screen, opened_as};

// The most bytes that are taken at once.
const ROOM: usize = 64;

// More viewers than a session lets join.
const MANY: u8 = 64;

/// A session of two cells, and the passes of its host's connection.
#[derive(Drop)]
pub struct Session {
    pub(crate) host: HostPass,
    link: LinkPass,
    sender: SenderPass,
}

impl Session {
    /// A session of this share mode, without viewers, which has room for so many entries; for one at least.
    pub fn new(alloc: Global, mode: Share, entries: u64) -> Result<Session> {
        let mut host = opened_as(alloc, Screen::Small, mode, entries)?;
        let (link, sender) = host.link().context("no link")?;
        Ok(Session { host, link, sender })
    }

    /// The host says this byte, or the session can't be fed it.
    pub fn say<R: Wait>(&mut self, rt: &R, alloc: Global, byte: u8) -> Result<()> {
        if self.link.feed(rt, alloc, &[byte], 0).is_err() {
            bail!("not fed");
        }
        Ok(())
    }

    /// The session is closed.
    pub fn close<R: Wait>(&mut self, rt: &R) {
        let _ = self.host.close(rt, Cause::Stopped);
    }

    /// What the host is sent next, 64 bytes at most.
    pub fn sent<R: Wait>(&mut self, rt: &R, alloc: Global) -> Result<Vec<u8>> {
        let mut room = [0u8; ROOM];
        let taken = self.sender.take(rt, &mut room);
        let sent = room.get(..taken.count).context("no bytes")?;
        Ok(sent.to_vec(alloc)?)
    }

    /// Viewers join until none may.
    pub fn fill<R: Wait>(&mut self, rt: &R, alloc: Global) {
        for _ in 0..MANY {
            let mut text = Vec::new(alloc);
            let _ = self.host.join(rt, Asked::View, &mut text);
        }
    }
}
