//! The door.

ghost use Rattle.std.specs.Prelude.{IfErr, IfOk, None};
ghost use Rattle.guac_handshake.specs.Doors.{IsJoinRefusal};
ghost use Rattle.shared_desk.specs.Hosts.{IsFresh};

use crate::session::Session;
use anyhow::{Context, Result};
use gate_model::{Asked, Text};
use gate_outside::Way;
use guac_handshake::{Ask, Begun, Door, Job, Recorder, Refused, Welcome};
use shared_desk::{JoinRefusal, Place};
use std::alloc::Global;
use std::sync::Wait;
use try_sessions::joined;

/// The name of a session whose ID is made of the bytes 00 to 0f.
pub const NAME: &str = "$00010203-0405-4607-8809-0a0b0c0d0e0f";

/// A job that does nothing.
#[derive(Drop)]
pub struct NoJob {}

impl Job for NoJob {
    fn run<R: Wait>(self, _rt: &R) {}
}

/// What a door does where a session is to begin.
#[derive(Clone, Copy, PartialEq, Eq)]
pub enum Opens {
    /// It begins one.
    Session,
    /// It begins one, which is closed as soon as its owner has joined.
    Closed,
    /// It doesn't reach the host.
    Undialed,
    /// It starts no job.
    Unstarted,
}

/// A door to one session, which it begins where it has none. It counts the places that it is given back.
#[derive(Drop)]
pub struct OneDoor {
    name: &'static str,
    entries: u64,
    opens: Opens,
    session: Option<Session>,
    dial_faults: u64,
    start_faults: u64,
    given: u64,
}

impl OneDoor {
    /// A door without a session. The one that it begins has this name, and room for so many entries.
    pub fn new(name: &'static str, entries: u64) -> OneDoor {
        OneDoor {
            name,
            entries,
            opens: Opens::Session,
            session: None,
            dial_faults: 0,
            start_faults: 0,
            given: 0,
        }
    }

    /// A door to this session, which has this name.
    pub fn with(name: &'static str, session: Session) -> OneDoor {
        let mut door = OneDoor::new(name, 0);
        door.session = Some(session);
        door
    }

    /// What the door does from now on where a session is to begin.
    pub fn set(&mut self, opens: Opens) {
        self.opens = opens;
    }

    /// The session, where there is one.
    pub fn session(&mut self) -> Result<&mut Session> {
        self.session.as_mut().context("no session")
    }

    /// Takes the session away, whose viewers keep their places.
    pub fn forget(&mut self) -> Option<Session> {
        self.session.take()
    }

    /// How many places went back under the session's name; it ends at 2^64 - 1.
    pub fn given(&self) -> u64 {
        self.given
    }
}

impl Door for OneDoor {
    type Place = Place;

    type Pump = NoJob;

    type Sending = NoJob;

    type Recording = NoJob;

    ghost id_of = { λ name. None };

    ghost view = { λ d. record { sessions = None; out = None; asked = None; helper = record { dial_faults = d.dial_faults; start_faults = d.start_faults; draws = None } } };

    ghost begun = { λ d ask welcome. Unit {0} };

    ghost joined = { λ d role welcome. Unit {0} };

    fn known<R: Wait>(&mut self, _rt: &R, name: &str) -> bool {
        self.session.is_some() && name == self.name
    }

    fn open<R: Wait>(
        &mut self,
        rt: &R,
        alloc: Global,
        ask: &Ask,
    ) -> Result<Begun<Place, NoJob, NoJob, NoJob>, Refused> {
        if self.opens == Opens::Undialed {
            self.dial_faults = self.dial_faults.saturating_add(1);
            return Err(Refused::Dial);
        }
        if self.session.is_some() {
            return Err(Refused::Conflict);
        }
        let Ok(mut session) = Session::new(alloc, ask.mode, self.entries) else {
            return Err(Refused::NoMemory);
        };
        match welcome(rt, alloc, self.name, &mut session, Asked::Owner) {
            Ok(welcome) => {
                if self.opens == Opens::Closed {
                    session.close(rt);
                }
                self.session = Some(session);
                Ok(Begun {
                    welcome,
                    pump: NoJob {},
                    sender: NoJob {},
                    recorder: Recorder::Unwanted,
                })
            }
            Err(_) => Err(Refused::NoMemory),
        }
    }

    fn way(&mut self) -> Way {
        match self.opens {
            Opens::Unstarted => Way::Refused,
            Opens::Session | Opens::Closed | Opens::Undialed => Way::Here,
        }
    }

    fn note(&mut self) {
        self.start_faults = self.start_faults.saturating_add(1);
    }

    fn undo<R: Wait>(&mut self, _rt: &R, _id: &Text) {
        self.session = None;
    }

    fn join<R: Wait>(
        &mut self,
        rt: &R,
        alloc: Global,
        name: &str,
        role: Asked,
    ) -> Result<Welcome<Place>, Refused> {
        if name != self.name {
            return Err(Refused::Absent);
        }
        match &mut self.session {
            Some(session) => welcome(rt, alloc, self.name, session, role),
            None => Err(Refused::Absent),
        }
    }

    /// Its viewer leaves.
    fn give<R: Wait>(&mut self, rt: &R, id: &str, place: Place) {
        let mut reader = place.reader;
        let _ = reader.leave(rt);
        if id == self.name {
            self.given = self.given.saturating_add(1);
        }
    }
}

// A viewer joins: its place, and the text that it is given first.
fn welcome<R: Wait>(
    rt: &R,
    alloc: Global,
    name: &str,
    session: &mut Session,
    role: Asked,
) -> Result<Welcome<Place>, Refused>
    ensures kind { IfErr result IsJoinRefusal }
    ensures fresh { IfOk result (λ w. IsFresh w.place w.first) }
{
    let id = Text::of(String::from_str(alloc, name)?);
    match joined(rt, alloc, &mut session.host, role) {
        Ok((place, first)) => Ok(Welcome { id, place, first }),
        Err(refusal) => Err(refused(refusal)),
    }
}

fn refused(refusal: JoinRefusal) -> Refused
    ensures { IsJoinRefusal result }
{
    match refusal {
        JoinRefusal::Closed(_) => Refused::Closed,
        JoinRefusal::Forbidden => Refused::Forbidden,
        JoinRefusal::TooMany { .. } => Refused::TooMany,
        JoinRefusal::Worn { .. } => Refused::Worn,
        JoinRefusal::NoMemory => Refused::NoMemory,
    }
}
