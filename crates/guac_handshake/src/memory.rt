//! A door in memory, over which greetings are tried.

ghost use Rattle.std.specs.Prelude.{◌≡◌, ◌≤◌, ℕ, [], IfOk, IfSome, OnOk, Some, is_some};
ghost use Rattle.gate_outside.specs.Helpers.{Dials};
ghost use Rattle.gate_outside.specs.Starts.{IsDialFailed};
ghost use Rattle.guac_handshake.specs.Doors.{RemovedOne, at_name};
ghost use Rattle.guac_handshake.specs.Memory.{untold};
ghost use Rattle.guac_handshake.specs.Names.{id_of_name};
ghost use Rattle.id_table.specs.Tables.{held};

use crate::connecting::owned;
use crate::names::{id_named, name_of};
use crate::{Ask, Begun, Door, Recorder, Refused, Welcome};
use gate_model::{Asked, Bytes, NoMemory, Text};
use gate_outside::{Counted, DialFault, Dialer, Job, MemDialer, MemDice, Seat, Way};
use id_table::{AddRefusal, IdTable};
use std::alloc::Global;
use std::sync::Wait;
use uuid::Uuid;

/// A place of a `MemDoor`, at which nothing is given.
#[derive(Drop)]
pub struct MemPlace {}

impl Seat for MemPlace {
    ghost use Rattle.std.specs.Prelude.{[], ◌≡◌};

    ghost fresh = { λ _ first. first ≡ [] };
}

/// A job that does nothing.
#[derive(Drop)]
pub struct MemJob {}

impl Job for MemJob {
    fn run<R: Wait>(self, _rt: &R) {}
}

/// A door over a table of IDs, dice and a dialer in memory. It lets each viewer in that selects an ID that is
/// there. It tells its IDs, its draws and how many places are out.
#[derive(Drop)]
pub struct MemDoor {
    ids: IdTable<()>,
    dice: MemDice,
    dialer: MemDialer,
    start_faults: u64,
    last: Option<Ask>,
    out: u64,
    given: u64,
}

impl MemDoor {
    ghost use Rattle.std.specs.Prelude.{◌≡◌, None, ℕ, List};
    ghost use Rattle.id_table.specs.Tables.{held};

    /// A door without sessions, which draws IDs from the dice and dials by the dialer.
    pub fn new(alloc: Global, dice: MemDice, dialer: MemDialer) -> MemDoor
        ensures empty { (id : List ℕ) → held result.ids id ≡ None }
        ensures dice { result.dice ≡ dice }
        ensures dialer { result.dialer ≡ dialer }
    {
        MemDoor {
            ids: IdTable::new(alloc),
            dice,
            dialer,
            start_faults: 0,
            last: None,
            out: 0,
            given: 0,
        }
    }

    /// What the door was asked last of a session that is to begin.
    pub fn last_ask(&self) -> Option<&Ask> {
        self.last.as_ref()
    }

    /// How many places were given back with an ID that is there; it ends at 2^64 - 1.
    pub fn given(&self) -> u64
        ensures { result ≡ self.now.given }
    {
        self.given
    }
}

impl Door for MemDoor {
    ghost use Rattle.std.specs.Prelude.{None, Some};
    ghost use Rattle.guac_handshake.specs.Memory.{untold};
    ghost use Rattle.guac_handshake.specs.Names.{id_of_name};
    ghost use Rattle.id_table.specs.Tables.{held};

    type Place = MemPlace;

    type Pump = MemJob;

    type Sending = MemJob;

    type Recording = MemJob;

    ghost id_of = { λ name. id_of_name name };

    ghost view = { λ s. record { sessions = Some (untold (held s.ids)); out = Some s.out; asked = None; helper = record { dial_faults = (⟦<MemDialer as Counted>⟧.helper s.dialer).dial_faults; start_faults = s.start_faults; draws = (⟦<MemDice as Counted>⟧.helper s.dice).draws } } };

    ghost begun = { λ _ _ _. Unit {0} };

    ghost joined = { λ _ _ _. Unit {0} };

    fn known<R: Wait>(&mut self, _rt: &R, name: &str) -> bool {
        id_of(&self.ids, name).is_some()
    }

    fn open<R: Wait>(
        &mut self,
        _rt: &R,
        alloc: Global,
        ask: &Ask,
    ) -> Result<Begun<MemPlace, MemJob, MemJob, MemJob>, Refused> {
        if self.out == u64::MAX {
            return Err(Refused::NoMemory);
        }
        match copy_of(alloc, ask) {
            Ok(copy) => self.last = Some(copy),
            Err(NoMemory) => return Err(Refused::NoMemory),
        }
        match dial(&mut self.dialer, alloc, ask) {
            Ok(()) => {}
            Err(DialFault::Failed) => return Err(Refused::Dial),
            Err(DialFault::NoMemory) => return Err(Refused::NoMemory),
        }
        let id = match self.ids.add(&mut self.dice, ()) {
            Ok(id) => id,
            Err(AddRefusal::Conflict(..)) => return Err(Refused::Conflict),
            Err(AddRefusal::NoMemory(_)) => return Err(Refused::NoMemory),
        };
        match name_of(alloc, id) {
            Ok(name) => {
                self.out += 1;
                Ok(begun(alloc, name))
            }
            Err(NoMemory) => {
                self.ids.remove(&id);
                Err(Refused::NoMemory)
            }
        }
    }

    fn way(&mut self) -> Way {
        Way::Here
    }

    fn note(&mut self) {
        self.start_faults = self.start_faults.saturating_add(1);
    }

    fn undo<R: Wait>(&mut self, _rt: &R, id: &Text) {
        remove_named(&mut self.ids, id.as_str());
        self.out = self.out.saturating_sub(1);
    }

    fn join<R: Wait>(
        &mut self,
        _rt: &R,
        alloc: Global,
        name: &str,
        _role: Asked,
    ) -> Result<Welcome<MemPlace>, Refused> {
        let Some(id) = id_of(&self.ids, name) else {
            return Err(Refused::Absent);
        };
        if self.out == u64::MAX {
            return Err(Refused::NoMemory);
        }
        match name_of(alloc, id) {
            Ok(name) => {
                self.out += 1;
                Ok(welcome(alloc, name))
            }
            Err(NoMemory) => Err(Refused::NoMemory),
        }
    }

    fn give<R: Wait>(&mut self, _rt: &R, id: &str, _place: MemPlace) {
        self.out = self.out.saturating_sub(1);
        if id_of(&self.ids, id).is_some() {
            self.given = self.given.saturating_add(1);
        }
    }
}

// Dials the host of the ask, and lets go of the link.
fn dial<L: Dialer>(dialer: &mut L, alloc: Global, ask: &Ask) -> Result<(), DialFault>
    ensures { Dials (IsDialFailed result) (L.helper dialer.old) (L.helper dialer.new) }
{
    match dialer.dial(alloc, ask.host.as_str(), ask.port) {
        Ok(_) => Ok(()),
        Err(fault) => Err(fault),
    }
}

// A session with nothing to show, jobs that do nothing and no recorder.
fn begun(alloc: Global, id: Text) -> Begun<MemPlace, MemJob, MemJob, MemJob>
    ensures id { result.welcome.id ≡ id }
    ensures first { result.welcome.first ≡ [] }
{
    Begun {
        welcome: welcome(alloc, id),
        pump: MemJob {},
        sender: MemJob {},
        recorder: Recorder::Unwanted,
    }
}

fn welcome(alloc: Global, id: Text) -> Welcome<MemPlace>
    ensures id { result.id ≡ id }
    ensures first { result.first ≡ [] }
{
    Welcome {
        id,
        place: MemPlace {},
        first: Bytes::of(Vec::new(alloc)),
    }
}

// The ID that the name gives, where it is there.
fn id_of(ids: &IdTable<()>, name: &str) -> Option<Uuid>
    ensures there { is_some result ≡ is_some (at_name (id_of_name name.now) (untold (held ids.now))) }
    ensures named { IfSome result (λ id. id_of_name name.now ≡ Some id) }
{
    let id = id_named(name)?;
    if ids.get(&id).is_some() {
        Some(id)
    } else {
        None
    }
}

// Takes out the ID that the name gives.
fn remove_named(ids: &mut IdTable<()>, name: &str)
    ensures { RemovedOne (id_of_name name.now) (untold (held ids.old)) (untold (held ids.new)) }
{
    let id = match id_named(name) {
        Some(id) => id,
        None => return,
    };
    ids.remove(&id);
}

fn copy_of(alloc: Global, ask: &Ask) -> Result<Ask, NoMemory>
    ensures { IfOk result (λ copy. copy ≡ ask.now) }
{
    Ok(Ask {
        host: owned(alloc, ask.host.as_str())?,
        port: ask.port,
        term: owned(alloc, ask.term.as_str())?,
        mode: ask.mode,
        read_only: ask.read_only,
        cols: ask.cols,
        rows: ask.rows,
    })
}
