//! The service's door.

ghost use Rattle.std.specs.Prelude.{◌≡◌, IfErr, IfOk, Some, true};
ghost use Rattle.guac_handshake.specs.Doors.{IsAbsent, IsJoinRefusal, MeetsTold};
ghost use Rattle.guac_handshake.specs.Names.{id_of_name};
ghost use Rattle.shared_desk.specs.Hosts.{IsFresh};
ghost use Rattle.service_door.specs.Doors.{HasLeft, JoinLeaves};
ghost use Rattle.service_door.specs.Sessions.{NoneLent};

use crate::jobs::{PumpJob, SenderJob};
use crate::making::{Made, Parts, make};
use crate::recorder::RecorderJob;
use crate::refusals::refused_of;
use crate::session::Session;
use gate_model::{Asked, Bytes, Faces, Text};
use gate_outside::{Bell, DialFault, Helper, Way};
use guac_handshake::{Ask, Begun, Door, NAME_BYTES, Refused, Welcome, id_named, name_in, name_of};
use id_table::{AddRefusal, Shelf};
use shared_desk::Place;
use std::alloc::Global;
use std::sync::Wait;
use uuid::Uuid;

/// The door of the service, over a table of sessions (this project's own). A new session is dialed, made, joined
/// by its owner, shared, joined by its recorder and added to the table, in this order, and then its jobs are started.
/// It tells its IDs and histories where its shelf tells what is there; a session's history is what its host's pass
/// has seen.
#[derive(Drop)]
pub struct ServiceDoor<'a, T: Shelf<Session>, H, B> {
    sessions: &'a mut T,
    helper: &'a mut H,
    bell: &'a B,
    recorder: Option<(Text, u16)>,
    faces: Faces,
    ghost unlent: { NoneLent (T.told sessions.now) },
}

impl<'a, T: Shelf<Session>, H: Helper, B: Bell> ServiceDoor<'a, T, H, B> {
    /// A door over these sessions, of which none is lent. It dials, starts jobs, draws IDs and tells moments by the
    /// helper. The jobs of a session have a bell each that rings with this one. The recorder is the host and the port
    /// that are dialed once for each session, to record it; the faces are those of each session. The door owns them,
    /// since the text is small and a door lives for one connection.
    pub fn new(
        sessions: &'a mut T,
        helper: &'a mut H,
        bell: &'a B,
        recorder: Option<(Text, u16)>,
        faces: Faces,
    ) -> ServiceDoor<'a, T, H, B>
        requires { NoneLent (T.told sessions.now) }
    {
        ServiceDoor {
            sessions,
            helper,
            bell,
            recorder,
            faces,
        }
    }
}

impl<'a, T: Shelf<Session>, H: Helper, B: Bell + Send + 'static> Door for ServiceDoor<'a, T, H, B> {
    ghost use Rattle.std.specs.Prelude.{IfErr, IfOk, IfSome, is_some};
    ghost use Rattle.guac_handshake.specs.Doors.{IsJoinRefusal};
    ghost use Rattle.guac_handshake.specs.Names.{id_of_name};
    ghost use Rattle.guac_handshake.specs.Views.{Gives, IsLetIn, Joins, Undoes};
    ghost use Rattle.id_table.specs.Maps.{Told};
    ghost use Rattle.shared_desk.specs.Hosts.{IsFresh};
    ghost use Rattle.service_door.specs.Begun.{IsBegun, IsJoined};
    ghost use Rattle.service_door.specs.Doors.{GiveChanges, HasLeft, JoinChanges, StopsUnder};
    ghost use Rattle.service_door.specs.Sessions.{door_view};

    type Place = Place;

    type Pump = PumpJob<H::Input, H, B>;

    type Sending = SenderJob<H::Output, B>;

    type Recording = RecorderJob<H::Output, B>;

    ghost id_of = { λ name. id_of_name name };

    ghost view = { λ d. door_view (T.told d.sessions.now) (H.helper d.helper.now) };

    ghost begun = { λ d ask welcome. IsBegun (is_some d.recorder) d.faces (T.told d.sessions.now) ask welcome };

    ghost joined = { λ d role welcome. IsJoined (T.told d.sessions.now) role welcome };

    fn known<R: Wait>(&mut self, rt: &R, name: &str) -> bool {
        match id_named(name) {
            Some(id) => self.sessions.has(rt, &id),
            None => false,
        }
    }

    fn open<R: Wait>(
        &mut self,
        rt: &R,
        alloc: Global,
        ask: &Ask,
    ) -> Result<
        Begun<Place, PumpJob<H::Input, H, B>, SenderJob<H::Output, B>, RecorderJob<H::Output, B>>,
        Refused,
    > {
        let link = match self.helper.dial(alloc, ask.host.as_str(), ask.port) {
            Ok(link) => link,
            Err(DialFault::Failed) => return Err(Refused::Dial),
            Err(DialFault::NoMemory) => return Err(Refused::NoMemory),
        };
        let recorder = match &self.recorder {
            Some((host, port)) => self.helper.dial(alloc, host.as_str(), *port).ok(),
            None => None,
        };
        let now = self.helper.now();
        let Ok(clock) = self.helper.another(alloc) else {
            return Err(Refused::NoMemory);
        };
        let parts = Parts {
            now,
            faces: self.faces,
            clock,
            link,
            wanted: self.recorder.is_some(),
            recorder,
        };
        let Ok(made) = make(rt, alloc, ask, parts, self.bell) else {
            return Err(Refused::NoMemory);
        };
        let Made {
            session,
            place,
            first,
            pump,
            sender,
            recorder,
        } = made;
        let Ok(room) = String::with_capacity(alloc, NAME_BYTES) else {
            return Err(Refused::NoMemory);
        };
        let key = match self.sessions.add(rt, self.helper, session) {
            Ok(key) => key,
            Err(AddRefusal::Conflict(..)) => return Err(Refused::Conflict),
            Err(AddRefusal::NoMemory(_)) => return Err(Refused::NoMemory),
        };
        let Ok(id) = name_in(room, key) else {
            if let Some(mut session) = self.sessions.remove(rt, &key) {
                session.stop(rt, self.bell);
            }
            return Err(Refused::NoMemory);
        };
        Ok(Begun {
            welcome: Welcome { id, place, first },
            pump,
            sender,
            recorder,
        })
    }

    fn way(&mut self) -> Way {
        self.helper.way()
    }

    fn note(&mut self) {
        self.helper.note();
    }

    fn undo<R: Wait>(&mut self, rt: &R, id: &Text)
        ensures undoes { Undoes (id_of_name id.now) (door_view (T.told self.old.sessions.now) (H.helper self.old.helper.now)) (door_view (T.told self.new.sessions.now) (H.helper self.new.helper.now)) }

        // Of this door alone.
        ensures stopped { IfSome (T.told self.old.sessions.now) (StopsUnder (id_of_name id.now)) }
    {
        let Some(key) = id_named(id.as_str()) else {
            return;
        };
        if let Some(mut session) = self.sessions.remove(rt, &key) {
            session.stop(rt, self.bell);
        }
    }

    fn join<R: Wait>(
        &mut self,
        rt: &R,
        alloc: Global,
        name: &str,
        role: Asked,
    ) -> Result<Welcome<Place>, Refused>
        ensures kind { IfErr result IsJoinRefusal }
        ensures joins { Joins (id_of_name name.now) name.now role result (door_view (T.told self.old.sessions.now) (H.helper self.old.helper.now)) (door_view (T.told self.new.sessions.now) (H.helper self.new.helper.now)) }
        ensures welcome { IfOk result (IsLetIn IsFresh id_of_name name.now (IsJoined (T.told self.new.sessions.now) role)) }

        // Of this door alone.
        ensures joined { Told (T.told self.old.sessions.now) (T.told self.new.sessions.now) (JoinChanges (id_of_name name.now) role result) }
    {
        let Some(key) = id_named(name) else {
            return Err(Refused::Absent);
        };
        let Some(mut session) = self.sessions.lend(rt, &key) else {
            return Err(Refused::Absent);
        };
        let joined = welcome(rt, alloc, &mut session, key, role);
        self.sessions.back(rt, &key, session);
        joined
    }

    fn give<R: Wait>(&mut self, rt: &R, id: &str, place: Place)
        ensures gives { Gives (id_of_name id.now) (door_view (T.told self.old.sessions.now) (H.helper self.old.helper.now)) (door_view (T.told self.new.sessions.now) (H.helper self.new.helper.now)) }

        // Of this door alone.
        ensures left { HasLeft place.reader.viewer place.reader.view }
        ensures given { Told (T.told self.old.sessions.now) (T.told self.new.sessions.now) (GiveChanges (id_of_name id.now)) }
    {
        leave(rt, place);
        let Some(key) = id_named(id) else {
            return;
        };
        if let Some(mut session) = self.sessions.lend(rt, &key) {
            session.count_back();
            self.sessions.back(rt, &key, session);
        }
    }
}

// Lets a viewer join a session that is there under the key. The text of its ID is taken before the viewer joins, so
// that one who joined can be told of it; where memory is wanting for it the session says whether something else refuses
// the viewer.
fn welcome<R: Wait>(
    rt: &R,
    alloc: Global,
    session: &mut Session,
    key: Uuid,
    role: Asked,
) -> Result<Welcome<Place>, Refused>
    ensures kind { IfErr result IsJoinRefusal }
    ensures there { IsAbsent result true }
    ensures fresh { IfOk result (λ welcome. IsFresh welcome.place welcome.first) }
    ensures id { IfOk result (λ welcome. id_of_name welcome.id ≡ Some key) }
    ensures history { MeetsTold session.new.host.view.seen role result }
    ensures leaves { JoinLeaves role result session.old session.new }
{
    let Ok(id) = name_of(alloc, key) else {
        return Err(refused_of(session.refuse(rt, role)));
    };
    let mut first = Vec::new(alloc);
    match session.join(rt, role, &mut first) {
        Ok(place) => Ok(Welcome {
            id,
            place,
            first: Bytes::of(first),
        }),
        Err(refusal) => Err(refused_of(refusal)),
    }
}

// The viewer of the place leaves, where it is there, and its passes go.
fn leave<R: Wait>(rt: &R, place: Place)
    ensures { HasLeft place.reader.viewer place.reader.view }
{
    let Place {
        mut reader,
        writer,
        role: _,
    } = place;
    let _ = reader.leave(rt);
    drop(writer);
}
