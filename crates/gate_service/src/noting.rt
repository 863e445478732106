//! A door that notes which sessions begin, and who leaves them, and tells the list of what runs.

ghost use Rattle.std.specs.Prelude.{◌≡◌, Option};

use crate::notes::{
    note_begun, note_dialed, note_joined, note_not_joined, note_unbegun, note_undialed,
    note_undone, note_unrecorded, note_unstarted, note_visit,
};
use gate_model::{Asked, Text};
use gate_outside::Way;
use guac_handshake::{Ask, Begun, Door, Recorder, Refused, Welcome, status_of};
use log::Log;
use session_list::{Fault, SessionList, Traffic};
use shared_desk::Place;
use std::alloc::Global;
use std::sync::Wait;

/// A door, and where it is noted and counted which sessions begin at it and that a place of one comes back. It tells what
/// that door tells.
#[derive(Drop)]
pub(crate) struct NotingDoor<D, L> {
    door: D,
    log: L,
    pub(crate) list: SessionList,
    traffic: Traffic,
}

impl<D, L: Log> NotingDoor<D, L> {
    /// The door, at which a session may begin whose link is counted so.
    pub(crate) fn new(door: D, log: L, list: SessionList, traffic: Traffic) -> NotingDoor<D, L>
        ensures { result.door ≡ door }
    {
        NotingDoor {
            door,
            log,
            list,
            traffic,
        }
    }

    // Tells that a session has begun.
    fn tell_begun<R: Wait, C>(&self, rt: &R, name: &str, ask: &Ask, recorder: &Recorder<C>) {
        let (host, port) = (ask.host.as_str(), ask.port);
        note_begun(&self.log, name);
        let is_recorded = match recorder {
            Recorder::Ready(_) => true,
            Recorder::Unwanted => false,
            Recorder::Failed => {
                note_unrecorded(&self.log, name);
                self.list.fail(Fault::Recorder);
                false
            }
        };
        note_dialed(&self.log, name, host, port);
        self.list
            .begin(rt, name, host, port, &self.traffic, is_recorded);
    }

    // Tells that no session could be begun, as its host couldn't be dialed or for another cause.
    fn tell_refused(&self, ask: &Ask, refused: Refused) {
        let (host, port) = (ask.host.as_str(), ask.port);
        match refused {
            Refused::Dial => {
                note_undialed(&self.log, host, port);
                self.list.fail(Fault::Dial);
            }
            _ => note_unbegun(&self.log, host, port, status_of(refused)),
        }
    }
}

impl<D: Door<Place = Place>, L: Log + Drop> Door for NotingDoor<D, L> {
    type Place = D::Place;

    type Pump = D::Pump;

    type Sending = D::Sending;

    type Recording = D::Recording;

    ghost id_of = { λ name. D.id_of name };

    ghost view = { λ d. D.view d.door };

    ghost begun = { λ d ask welcome. D.begun d.door ask welcome };

    ghost joined = { λ d role welcome. D.joined d.door role welcome };

    fn known<R: Wait>(&mut self, rt: &R, name: &str) -> bool {
        self.door.known(rt, name)
    }

    fn open<R: Wait>(
        &mut self,
        rt: &R,
        alloc: Global,
        ask: &Ask,
    ) -> Result<Begun<D::Place, D::Pump, D::Sending, D::Recording>, Refused> {
        let opened = self.door.open(rt, alloc, ask);
        match &opened {
            Ok(begun) => self.tell_begun(rt, begun.welcome.id.as_str(), ask, &begun.recorder),
            Err(refused) => self.tell_refused(ask, *refused),
        }
        opened
    }

    fn way(&mut self) -> Way {
        self.door.way()
    }

    fn note(&mut self) {
        note_unstarted(&self.log);
        self.list.fail(Fault::Start);
        self.door.note();
    }

    fn undo<R: Wait>(&mut self, rt: &R, id: &Text) {
        note_undone(&self.log, id.as_str());
        self.list.undo(rt, id.as_str());
        self.door.undo(rt, id);
    }

    fn join<R: Wait>(
        &mut self,
        rt: &R,
        alloc: Global,
        name: &str,
        role: Asked,
    ) -> Result<Welcome<D::Place>, Refused> {
        let joined = self.door.join(rt, alloc, name, role);
        match &joined {
            Ok(welcome) => {
                let (viewer, role) = (welcome.place.reader.viewer(), welcome.place.role);
                note_joined(&self.log, name, viewer, role);
                self.list.join(rt, name, viewer, role);
            }
            Err(refused) => note_not_joined(&self.log, name, status_of(*refused)),
        }
        joined
    }

    fn give<R: Wait>(&mut self, rt: &R, id: &str, place: D::Place) {
        let viewer = place.reader.viewer();
        note_visit(&self.log, id, viewer);
        self.list.leave(rt, id, viewer);
        self.door.give(rt, id, place);
    }
}
