//! A session in the table.

ghost use Rattle.std.specs.Prelude.{◌≡◌, ◌≤◌, ℕ, List, Err, IfOk, IfSome, length};
ghost use Rattle.service_door.specs.Sessions.{HasNobody, IsOver};

use crate::marks::{Deserted, Ended, SharedMarks};
use crate::telling::Marks;
use gate_model::{Asked, Cause};
use gate_outside::Bell;
use id_table::{LockedShelf, Shelf};
use shared_desk::{Closed, HostPass, JoinRefusal, Place};
use std::marker::Model;
use std::sync::Wait;
use uuid::Uuid;
use wake_spot::Spots;

// How many bytes may wait for the host of a session: what its viewers type and its host asks for, where it takes nothing.
const MOST_OUTPUT: u64 = 4_194_304;

/// A session in the table: its host's pass, how many of its places are out, and the marks that its jobs set when
/// they end. Contracts see the first two. The number of places ends at 2^64 - 1.
#[derive(Drop)]
pub struct Session {
    pub(crate) host: HostPass,
    pub(crate) places: u64,
    pub(crate) marks: SharedMarks,
}

impl Model for Session {
    ghost use Rattle.service_door.specs.Sessions.{SessionState};

    ghost Value = { SessionState };

    ghost view = { λ s. record { host = s.host; places = s.places } };
}

impl Session {
    ghost use Rattle.std.specs.Prelude.{if◌then◌else◌, is_ok};
    ghost use Rattle.shared_desk.specs.Hosts.{JoinEnds};
    ghost use Rattle.service_door.specs.Doors.{IsClosed, IsStopped};
    ghost use Rattle.service_door.specs.Sessions.{is_deserted, may_leave, one_less, one_more};

    /// Lets a viewer join, by `HostPass::join`. Its place is then out.
    pub(crate) fn join<R: Wait>(
        &mut self,
        rt: &R,
        role: Asked,
        into: &mut Vec<u8>,
    ) -> Result<Place, JoinRefusal>
        ensures step { JoinEnds self.old.host.view role result self.new.host.view into.old.items into.new.items }
        ensures place { IfOk result (λ place. (place.reader.session ≡ self.old.host.session) × (place.writer.session ≡ self.old.host.session)) }
        ensures session { self.new.host.session ≡ self.old.host.session }
        ensures out { self.new.places ≡ (if is_ok result then one_more self.old.places else self.old.places) }
    {
        let place = self.host.join(rt, role, into)?;
        self.places = self.places.saturating_add(1);
        Ok(place)
    }

    /// Why a viewer is refused that asks so, where memory is wanting for it, by `HostPass::refuse`.
    pub(crate) fn refuse<R: Wait>(&mut self, rt: &R, role: Asked) -> JoinRefusal
        ensures step { (text : List ℕ) → JoinEnds self.old.host.view role (Err result) self.new.host.view text text }
        ensures session { self.new.host.session ≡ self.old.host.session }
        ensures unchanged { self.new.places ≡ self.old.places }
    {
        self.host.refuse(rt, role)
    }

    /// Counts a place that is back.
    pub(crate) fn count_back(&mut self)
        ensures { self.new ≡ record self.old { places = one_less self.old.places } }
    {
        self.places = self.places.saturating_sub(1);
    }

    /// Closes the session where it is open.
    pub(crate) fn close<R: Wait>(&mut self, rt: &R, cause: Cause) -> Result<(), Closed>
        ensures { IsClosed cause result self.old self.new }
    {
        let closed = self.host.close(rt, cause);
        if closed.is_ok() {
            self.marks.closed_for(cause);
        }
        closed
    }

    /// The spots at which those sleep who wait for news of the session.
    pub(crate) fn spots(&self) -> &Spots {
        self.host.spots()
    }

    /// Whether the session may leave the table: its jobs have ended, as its marks said, and no place of it is out.
    pub(crate) fn is_over(&self, ended: Ended) -> bool
        ensures { result ≡ may_leave ended self.now.places }
    {
        self.places == 0 && ended.both()
    }

    /// Closes the session with Stopped, where it is open, and rings for all who wait for news of it.
    pub fn stop<R: Wait, B: Bell>(&mut self, rt: &R, bell: &B)
        ensures { IsStopped self.old self.new }
    {
        let _ = self.close(rt, Cause::Stopped);
        bell.ring_all(self.spots());
    }

    /// Whether its recorder has ended before it, and this wasn't asked for since.
    pub fn take_recorder_failed(&self) -> bool {
        self.marks.take_recorder_failed()
    }

    // Counts a look at the session, and where `wakes` lets all look again who wait for news of it.
    fn look<B: Bell>(&self, bell: &B, wakes: bool) {
        self.marks.count_look(self.places == 0);
        if wakes {
            bell.ring_all(self.spots());
        }
    }

    /// How many bytes wait for its host, as was said last.
    pub fn waiting(&self) -> u64 {
        self.spots().output()
    }

    // Whether it is open, and more bytes wait for its host than may.
    fn is_backlogged(&self) -> bool {
        !self.spots().is_closed() && self.waiting() > MOST_OUTPUT
    }

    // Whether nobody is in the session, nor was at more than `most` looks in a row, as its marks said.
    fn is_deserted(&self, deserted: Deserted, most: u32) -> bool
        ensures { result ≡ is_deserted deserted most self.now.places }
    {
        self.places == 0 && deserted.is_passed_over(most)
    }

    /// The number of entries that the session has.
    pub fn newest(&mut self) -> u64
        ensures seen { length self.old.host.view.seen ≤ result }
        ensures places { self.new.places ≡ self.old.places }
    {
        self.host.newest()
    }
}

/// Takes out the session with the least ID among those that may leave the table: whose jobs have ended, as the marks
/// told, and of which no place is out.
pub fn sweep<R: Wait, M: Marks>(
    rt: &R,
    sessions: &LockedShelf<Session>,
    marks: &M,
) -> Option<(Uuid, Session)>
    ensures { IfSome result (λ r. IsOver (M.tells_ended marks.now) r.1) }
{
    sessions.sweep(rt, |session| session.is_over(marks.ended(session)))
}

/// Counts a look at each session, at which somebody is in it or not, and where `wakes` lets all look again who wait for
/// news of one.
pub fn look<R: Wait, B: Bell>(rt: &R, sessions: &LockedShelf<Session>, bell: &B, wakes: bool) {
    let _ = sessions.sweep(rt, |session| {
        session.look(bell, wakes);
        false
    });
}

/// Closes the session with the least ID among those that are open and for whose host more than 4,194,304 bytes wait, with
/// LinkFault, and rings for all who wait for news of it: its ID.
pub fn close_backlogged<R: Wait, B: Bell>(
    rt: &R,
    sessions: &mut LockedShelf<Session>,
    bell: &B,
) -> Option<Uuid> {
    let id = sessions.least_done(rt, |session| session.is_backlogged())?;
    let mut session = sessions.lend(rt, &id)?;
    let _ = session.close(rt, Cause::LinkFault);
    bell.ring_all(session.spots());
    sessions.back(rt, &id, session);
    Some(id)
}

/// Takes out the session with the least ID among those in which nobody has been at more than `most` looks in a row, or
/// at one where nobody may join it, as the marks told.
pub fn sweep_deserted<R: Wait, M: Marks>(
    rt: &R,
    sessions: &LockedShelf<Session>,
    most: u32,
    marks: &M,
) -> Option<(Uuid, Session)>
    ensures { IfSome result (λ r. HasNobody (M.tells_deserted marks.now) most r.1) }
{
    sessions.sweep(rt, |session| {
        session.is_deserted(marks.deserted(session), most)
    })
}

/// The least ID of a session whose recorder has ended before it, which is told once of each.
pub fn find_unrecorded<R: Wait>(rt: &R, sessions: &LockedShelf<Session>) -> Option<Uuid> {
    sessions.least_done(rt, |session| session.take_recorder_failed())
}
