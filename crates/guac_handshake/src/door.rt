ghost use Rattle.std.specs.Prelude.{◌≡◌, ℕ, List, Option, IfOk, IfErr, IfSome, is_some};
ghost use Rattle.gate_model.specs.declared.sharing.Asked.{Asked};
ghost use Rattle.guac_handshake.specs.Asks.{IsAskable};
ghost use Rattle.guac_handshake.specs.Doors.{IsBeginRefusal, IsJoinRefusal, IsOpenRefusal, at_name};
ghost use Rattle.guac_handshake.specs.Views.{Begins, DoorView, Gives, IsLetIn, Joins, Looks, Notes, Undoes};
ghost use Rattle.guac_handshake.specs.declared.ask.Ask.{Ask};
ghost use Rattle.guac_handshake.specs.declared.welcome.Welcome.{Welcome};

use crate::{Ask, Begun, Recorder, Refused, Welcome};
use gate_model::{Asked, Text};
use gate_outside::{Job, Seat, Way, start_by};
use std::alloc::Global;
use std::sync::Wait;
use std::thread::Threads;

/// Where viewers come from (this project's own). A door gives places in sessions: in one that begins, or in
/// one that is there. What it tells of itself is optional, and each fact holds where it is told.
pub trait Door: Drop {
    /// A viewer's place.
    type Place: Seat;

    /// The job that feeds a session.
    type Pump: Job;

    /// The job that sends to a session's host.
    type Sending: Job;

    /// The job that records a session.
    type Recording: Job;

    /// The ID that a name gives, if any.
    ghost id_of: { List ℕ → Option (List ℕ) };

    /// What the door tells: its sessions, its places that are out, what it was asked, and what its helper tells.
    ghost view: { Self → DoorView };

    /// What the door says of itself once it has begun the session of this welcome, as the ask wants it.
    ghost begun: { Self → Ask → Welcome Self.Place → Type 0 };

    /// What the door says of itself once a viewer that asked for this has joined, who has this welcome.
    ghost joined: { Self → Asked → Welcome Self.Place → Type 0 };

    /// Whether there is a session of the ID that the name gives.
    fn known<R: Wait>(&mut self, rt: &R, name: &str) -> bool
        ensures known { IfSome (view self.old).sessions (λ m. result ≡ is_some (at_name (id_of name.now) m)) }
        ensures looks { Looks (view self.old) (view self.new) };

    /// Dials, and makes a session that can be joined, whose jobs aren't started. A recorder that can't be had is
    /// no refusal.
    fn open<R: Wait>(
        &mut self,
        rt: &R,
        alloc: Global,
        ask: &Ask,
    ) -> Result<Begun<Self::Place, Self::Pump, Self::Sending, Self::Recording>, Refused>
        requires askable { IsAskable ask.now }
        ensures kind { IfErr result IsOpenRefusal }
        ensures begins { Begins (λ begun. id_of begun.welcome.id) ask.now result (view self.old) (view self.new) }
        ensures starts { (view self.new).helper.start_faults ≡ (view self.old).helper.start_faults }
        ensures fresh { IfOk result (λ begun. Self.Place.fresh begun.welcome.place begun.welcome.first) }
        ensures begun { IfOk result (λ made. begun self.new ask.now made.welcome) };

    /// Says how the next job starts.
    fn way(&mut self) -> Way
        ensures begun { (wanted : Ask) (welcome : Welcome Self.Place) → begun self.old wanted welcome → begun self.new wanted welcome }
        ensures same { view self.new ≡ view self.old };

    /// Counts a job that wasn't started.
    fn note(&mut self)
        ensures begun { (wanted : Ask) (welcome : Welcome Self.Place) → begun self.old wanted welcome → begun self.new wanted welcome }
        ensures notes { Notes (view self.old) (view self.new) };

    /// Closes a session that was opened, and takes it away with its place.
    fn undo<R: Wait>(&mut self, rt: &R, id: &Text)
        ensures undoes { Undoes (id_of id.now) (view self.old) (view self.new) };

    /// Begins a session: dials, makes it and starts its jobs, that of its recorder last. Its screen has 1 to 512
    /// columns and 1 to 256 rows, its terminal type 1 to 40 visible characters (`asks` and a form give no other).
    /// Dial and Busy come only where their count rose in this call, Conflict only where an ID is there; refused,
    /// no session is there that wasn't. Where the recorder's job isn't started, that is counted and the session
    /// goes on.
    final fn begin<R: Threads + Wait + Copy + Send + 'static>(
        &mut self,
        rt: &R,
        alloc: Global,
        ask: &Ask,
    ) -> Result<Welcome<Self::Place>, Refused>
        requires askable { IsAskable ask.now }
        ensures kind { IfErr result IsBeginRefusal }
        ensures begins { Begins (λ welcome. id_of welcome.id) ask.now result (view self.old) (view self.new) }
        ensures fresh { IfOk result (λ welcome. Self.Place.fresh welcome.place welcome.first) }
        ensures begun { IfOk result (λ welcome. begun self.new ask.now welcome) }
    {
        let Begun {
            welcome,
            pump,
            sender,
            recorder,
        } = self.open(rt, alloc, ask)?;
        let inner = *rt;
        let way = self.way();
        if start_by(rt, way, move || pump.run(&inner)).is_err() {
            self.note();
            self.undo(rt, &welcome.id);
            return Err(Refused::Busy);
        }
        let way = self.way();
        if start_by(rt, way, move || sender.run(&inner)).is_err() {
            self.note();
            self.undo(rt, &welcome.id);
            return Err(Refused::Busy);
        }
        let Recorder::Ready(recording) = recorder else {
            return Ok(welcome);
        };
        let way = self.way();
        if start_by(rt, way, move || recording.run(&inner)).is_ok() {
            return Ok(welcome);
        }
        self.note();
        Ok(welcome)
    }

    /// Lets a viewer join the session of the ID that the name gives; it asks as Control or View. Absent comes
    /// exactly where there is none.
    fn join<R: Wait>(
        &mut self,
        rt: &R,
        alloc: Global,
        name: &str,
        role: Asked,
    ) -> Result<Welcome<Self::Place>, Refused>
        ensures kind { IfErr result IsJoinRefusal }
        ensures joins { Joins (id_of name.now) name.now role result (view self.old) (view self.new) }
        ensures welcome { IfOk result (IsLetIn Self.Place.fresh id_of name.now (joined self.new role)) };

    /// Takes back a place that was handed out with that ID.
    fn give<R: Wait>(&mut self, rt: &R, id: &str, place: Self::Place)
        ensures gives { Gives (id_of id.now) (view self.old) (view self.new) };
}
