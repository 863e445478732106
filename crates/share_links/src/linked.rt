//! A door with links that threads share.

use crate::door::LinkDoor;
use crate::table::LinkTable;
use gate_model::{Asked, Text};
use gate_outside::Way;
use guac_handshake::{Ask, Begun, Door, Refused, Welcome};
use std::alloc::Global;
use std::sync::{Mutex, Wait};

/// A door over a door of its own and a table of links behind a lock (this project's own). Each call of `known`, `join` and
/// `give` is that of a [`LinkDoor`], which is made for it under the lock; every other call goes to the inner door without
/// the lock, so that the lock isn't held while a host is dialed or a job is started. It tells no sessions.
#[derive(Drop)]
pub struct Linked<'a, D> {
    /// The inner door.
    pub door: D,
    /// The links.
    pub links: &'a Mutex<LinkTable>,
}

impl<'a, D: Door> Door for Linked<'a, D> {
    ghost use Rattle.share_links.specs.Doors.{IsJoinedAs, told_through};

    type Place = D::Place;

    type Pump = D::Pump;

    type Sending = D::Sending;

    type Recording = D::Recording;

    ghost id_of = { λ name. D.id_of name };

    ghost view = { λ d. told_through (D.view d.door) };

    ghost begun = { λ d ask welcome. D.begun d.door ask welcome };

    ghost joined = { λ d role welcome. IsJoinedAs (D.joined d.door) role welcome };

    fn known<R: Wait>(&mut self, rt: &R, name: &str) -> bool {
        let mut links = self.links.lock(rt);
        let mut door = LinkDoor::new(&mut self.door, &mut links);
        door.known(rt, name)
    }

    fn open<R: Wait>(
        &mut self,
        rt: &R,
        alloc: Global,
        ask: &Ask,
    ) -> Result<Begun<D::Place, D::Pump, D::Sending, D::Recording>, Refused> {
        self.door.open(rt, alloc, ask)
    }

    fn way(&mut self) -> Way {
        self.door.way()
    }

    fn note(&mut self) {
        self.door.note();
    }

    fn undo<R: Wait>(&mut self, rt: &R, id: &Text) {
        self.door.undo(rt, id);
    }

    fn join<R: Wait>(
        &mut self,
        rt: &R,
        alloc: Global,
        name: &str,
        role: Asked,
    ) -> Result<Welcome<D::Place>, Refused> {
        let mut links = self.links.lock(rt);
        let mut door = LinkDoor::new(&mut self.door, &mut links);
        door.join(rt, alloc, name, role)
    }

    fn give<R: Wait>(&mut self, rt: &R, id: &str, place: D::Place) {
        let mut links = self.links.lock(rt);
        let mut door = LinkDoor::new(&mut self.door, &mut links);
        door.give(rt, id, place);
    }
}
