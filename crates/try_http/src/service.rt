//! Tunnels to one session.

use anyhow::{Context, Result};
use gate_outside::{MemBell, MemDice};
use http_front::{Request, Response};
use http_tunnel::{Tunnel, tunnel_request};
use id_table::LockedShelf;
use std::alloc::Global;
use std::sync::Wait;
use std::thread::Threads;
use try_doors::{NAME, OneDoor};

// The bytes 10 to 1f, which every draw of a tunnel's ID gives.
const DRAW: [u8; 16] = [
    16, 17, 18, 19, 20, 21, 22, 23, 24, 25, 26, 27, 28, 29, 30, 31,
];

/// The tunnels, and the door to the session.
#[derive(Drop)]
pub struct Service {
    pub tunnels: LockedShelf<Tunnel>,
    pub door: OneDoor,
    dice: MemDice,
    bell: MemBell,
}

impl Service {
    /// A service without a session, whose sessions have room for so many entries.
    pub fn new(alloc: Global, entries: u64) -> Result<Service> {
        let dice = dice(alloc)?;
        let tunnels = LockedShelf::new(alloc).ok().context("no memory")?;
        Ok(Service {
            tunnels,
            door: OneDoor::new(NAME, entries),
            dice,
            bell: MemBell::new(),
        })
    }

    /// A service over these tunnels, with a door of its own.
    pub fn over(alloc: Global, tunnels: &LockedShelf<Tunnel>) -> Result<Service> {
        let dice = dice(alloc)?;
        Ok(Service {
            tunnels: tunnels.another(),
            door: OneDoor::new(NAME, 0),
            dice,
            bell: MemBell::new(),
        })
    }

    /// Answers a request.
    pub fn answer<R: Threads + Wait + Copy + Send + 'static>(
        &mut self,
        rt: &R,
        alloc: Global,
        request: &Request<'_>,
    ) -> Response {
        tunnel_request(
            rt,
            alloc,
            &mut self.tunnels,
            request,
            &mut self.door,
            &mut self.dice,
            &self.bell,
        )
    }
}

fn dice(alloc: Global) -> Result<MemDice> {
    Ok(MemDice::new([DRAW].to_vec(alloc)?))
}
