//! One viewer's connection.

ghost use Rattle.std.specs.Prelude.{◌≡◌, ◌++◌, ℕ, List};
ghost use Rattle.gate_model.specs.session.Delivered.{delivered};
ghost use Rattle.gate_model.specs.text.Text.{texts};
ghost use Rattle.gate_outside.specs.Edge.{CountsFault, came, gained};
ghost use Rattle.gate_outside.specs.Helpers.{NeverFell};
ghost use Rattle.guac_handshake.specs.Causes.{HasCause};
ghost use Rattle.guac_handshake.specs.Doors.{Grants};
ghost use Rattle.shared_desk.specs.Hosts.{IsFresh};
ghost use Rattle.shared_desk.specs.Members.{Stays};
ghost use Rattle.user_serve.specs.Intakes.{IntakeRun};
ghost use Rattle.user_serve.specs.Outlets.{OutletRun};
ghost use Rattle.user_serve.specs.Users.{HasGreeted, HasReadFault, HasWriteFault, IfRefused, LeavesDoor, UserRun, VisitRun};
ghost use Rattle.user_serve.specs.declared.ends.IntakeEnd.TheVariants as intakes;
ghost use Rattle.user_serve.specs.declared.ends.OutletEnd.TheVariants as outlets;

use crate::ends::{IntakeEnd, OutletEnd, UserEnd, Visit};
use crate::hearing::intake;
use crate::showing::outlet;
use gate_model::Bytes;
use gate_outside::{Bell, Sink, Source};
use guac_handshake::{Door, Greeted, Welcome, greet};
use shared_desk::{Place, ReaderPass, WriterPass};
use std::alloc::Global;
use std::sync::Wait;
use std::thread::{Threads, join_mut};

/// Greets a viewer, and then hears it and shows it what it is given, each in a thread of its own; where no thread
/// can be made the viewer is heard first. The bells of the two are made before the greeting. What the door gave
/// is in the visit, for the caller to give back. An end that isn't Served is the greeting's, with its cause; or
/// memory was wanting before it, and nothing was read or written. Behind the greeting the door isn't called (this
/// project's own).
pub fn serve_user<R, S, K, D, B>(
    rt: &R,
    alloc: Global,
    source: &mut S,
    sink: &mut K,
    door: &mut D,
    bell: &B,
) -> UserEnd
where
    R: Threads + Wait + Copy + Send + Sync + 'static,
    S: Source + Send,
    K: Sink + Send,
    D: Door<Place = Place>,
    B: Bell + Send,
    ensures ran { (read : List ℕ) × (written : List ℕ) × (S.left source.old ≡ came read (S.left source.new)) × (K.written sink.new ≡ gained (K.written sink.old) written) × UserRun (S.left source.new) result read written }
    ensures greeting { HasGreeted D.id_of (Grants (D.begun door.new) (D.joined door.new)) (D.view door.old) (D.view door.new) (S.left source.old) (S.left source.new) (K.written sink.old) (K.written sink.new) result }
    ensures door { LeavesDoor D.id_of (D.view door.old) (D.view door.new) result }
    ensures refused { IfRefused result (HasCause (D.view door.old) (D.view door.new)) }
    ensures later { NeverFell (D.view door.old).helper (D.view door.new).helper }
    ensures reads { CountsFault (HasReadFault result) (S.faults source.old) (S.faults source.new) }
    ensures writes { CountsFault (HasWriteFault result) (K.faults sink.old) (K.faults sink.new) }
{
    let Ok(hearing) = bell.another(alloc) else {
        return UserEnd::NoMemory;
    };
    let Ok(showing) = bell.another(alloc) else {
        return UserEnd::NoMemory;
    };
    let mut rest = Vec::new(alloc);
    match greet(rt, alloc, source, sink, &mut rest, door) {
        Greeted::Ready(welcome) => UserEnd::Served(visit(
            rt,
            alloc,
            source,
            sink,
            rest,
            welcome,
            (hearing, showing),
        )),
        Greeted::Refused(status) => UserEnd::Refused(status),
        Greeted::Ended => UserEnd::Ended,
        Greeted::ReadFault => UserEnd::ReadFault,
        Greeted::WriteFault => UserEnd::WriteFault,
        Greeted::NoMemory => UserEnd::NoMemory,
    }
}

// Serves a viewer that was let in. The bells are for hearing it and for showing it what it is given.
fn visit<R, K, B, S>(
    rt: &R,
    alloc: Global,
    source: &mut S,
    sink: &mut K,
    rest: Vec<u8>,
    welcome: Welcome<Place>,
    bells: (B, B),
) -> Visit
where
    R: Threads + Wait + Sync,
    K: Sink + Send,
    B: Bell + Send,
    S: Source + Send,
    requires fresh { IsFresh welcome.place welcome.first }
    ensures ran { (read : List ℕ) × (written : List ℕ) × (S.left source.old ≡ came read (S.left source.new)) × (K.written sink.new ≡ gained (K.written sink.old) written) × VisitRun welcome result (rest.items ++ read) written (S.left source.new) }
    ensures reads { CountsFault (result.intake ≡ intakes.ReadFault) (S.faults source.old) (S.faults source.new) }
    ensures writes { CountsFault (result.outlet ≡ outlets.WriteFault) (K.faults sink.old) (K.faults sink.new) }
{
    let Welcome { id, place, first } = welcome;
    let Place {
        mut reader,
        mut writer,
        role,
    } = place;
    let (mut hearing, mut showing) = bells;
    let (mut rest, mut first) = (rest, first);
    let (outlet, intake) = both(
        rt,
        alloc,
        &mut reader,
        &mut first,
        sink,
        &mut showing,
        &mut writer,
        source,
        &mut rest,
        &mut hearing,
    );
    Visit {
        id,
        place: Place {
            reader,
            writer,
            role,
        },
        intake,
        outlet,
    }
}

// Shows in a thread of its own, and hears in this one.
fn both<R, K, B, S>(
    rt: &R,
    alloc: Global,
    reader: &mut ReaderPass,
    first: &mut Bytes,
    sink: &mut K,
    showing: &mut B,
    writer: &mut WriterPass,
    source: &mut S,
    rest: &mut Vec<u8>,
    hearing: &mut B,
) -> (OutletEnd, IntakeEnd)
where
    R: Threads + Wait + Sync,
    K: Sink + Send,
    B: Bell + Send,
    S: Source + Send,
    requires fresh { first.old ≡ texts (delivered reader.old.view.seen reader.old.viewer) }
    ensures reader_stays { Stays reader.old reader.new }
    ensures writer_stays { Stays writer.old writer.new }
    ensures shown { (written : List ℕ) × (K.written sink.new ≡ gained (K.written sink.old) written) × OutletRun reader.old.viewer reader.old.view reader.new.view written result.0 }
    ensures heard { (read : List ℕ) × (S.left source.old ≡ came read (S.left source.new)) × IntakeRun writer.old.viewer writer.old.view writer.new.view (rest.old.items ++ read) rest.new.items (S.left source.new) result.1 }
    ensures reads { CountsFault (result.1 ≡ intakes.ReadFault) (S.faults source.old) (S.faults source.new) }
    ensures writes { CountsFault (result.0 ≡ outlets.WriteFault) (K.faults sink.old) (K.faults sink.new) }
{
    join_mut(
        rt,
        &mut || show(rt, alloc, reader, first, sink, showing),
        &mut || hear(rt, alloc, writer, source, rest, hearing),
    )
}

// The outlet with what it is lent alone, so that a thread may have it.
fn show<R: Wait, K: Sink, B: Bell>(
    rt: &R,
    alloc: Global,
    reader: &mut ReaderPass,
    first: &mut Bytes,
    sink: &mut K,
    bell: &mut B,
) -> OutletEnd
    requires fresh { first.old ≡ texts (delivered reader.old.view.seen reader.old.viewer) }
    ensures stays { Stays reader.old reader.new }
    ensures ran { (written : List ℕ) × (K.written sink.new ≡ gained (K.written sink.old) written) × OutletRun reader.old.viewer reader.old.view reader.new.view written result }
    ensures faults { CountsFault (result ≡ outlets.WriteFault) (K.faults sink.old) (K.faults sink.new) }
{
    outlet(rt, alloc, reader, &*first, sink, bell)
}

// The intake with a bell that is lent alone.
fn hear<R: Wait, S: Source, B: Bell>(
    rt: &R,
    alloc: Global,
    writer: &mut WriterPass,
    source: &mut S,
    rest: &mut Vec<u8>,
    bell: &mut B,
) -> IntakeEnd
    ensures stays { Stays writer.old writer.new }
    ensures ran { (read : List ℕ) × (S.left source.old ≡ came read (S.left source.new)) × IntakeRun writer.old.viewer writer.old.view writer.new.view (rest.old.items ++ read) rest.new.items (S.left source.new) result }
    ensures faults { CountsFault (result ≡ intakes.ReadFault) (S.faults source.old) (S.faults source.new) }
{
    intake(rt, alloc, writer, source, rest, bell)
}
