//! The handshake.

ghost use Rattle.std.specs.Prelude.{◌≡◌, ◌<◌, [], Err, IfErr, length};
ghost use Rattle.gate_outside.specs.Edge.{CountsFault};
ghost use Rattle.gate_outside.specs.Helpers.{CountsFaults, NeverFell};
ghost use Rattle.guac_handshake.specs.Asks.{MayAsk};
ghost use Rattle.guac_handshake.specs.Causes.{HasCause, IfRefused, IsEarly};
ghost use Rattle.guac_handshake.specs.Doors.{Grants};
ghost use Rattle.guac_handshake.specs.Greetings.{HasAsked, HasConnected, HasKept, HasSelected, IfReady, IsFound, IsGreeting, IsServed, IsToldError, IsToldReady, OnReady, Touches, stopped_as};
ghost use Rattle.guac_handshake.specs.Views.{Looks, MayRefuse, Names};

use crate::asking::ask;
use crate::expected::{Expected, Said};
use crate::hearing::hear;
use crate::replies::{write_args, write_error, write_ready};
use crate::request::Selected;
use crate::statuses::status_of;
use crate::stop::Stop;
use crate::unread::Unread;
use crate::{Door, Greeted, Refused, Request, Welcome};
use gate_model::Text;
use gate_model::statuses::{BAD_REQUEST, NOT_FOUND};
use gate_outside::{Sink, Source};
use std::alloc::Global;
use std::mem;
use std::sync::Wait;
use std::thread::Threads;

/// How many bytes are read at once.
const PIECE: usize = 4096;

/// Between `select` and `connect` the instruction of this number is one too many (this project's own rule).
const TOO_MANY: usize = 65;

// Reads the instructions behind `select`, up to `connect`.
fn connect<S: Source>(
    alloc: Global,
    source: &mut S,
    unread: &mut Unread,
    piece: &mut [u8],
    selected: &Selected,
) -> Result<Request, Stop>
    requires { 0 < length piece.old }
    ensures connected { HasConnected selected.now (S.left source.old) (S.left source.new) unread.old unread.new result }
    ensures early { IfErr result (IsEarly ⊥) }
    ensures reads { CountsFault (result ≡ Err Stop.ReadFault) (S.faults source.old) (S.faults source.new) }
{
    let mut size = None;
    'reading: for _between in 0..TOO_MANY {
        match hear(
            alloc,
            source,
            unread,
            piece,
            Expected::Connect(selected, size),
        )? {
            Said::Ask(request) => return Ok(request),
            Said::Size(found) => size = Some(found),
            Said::Other => {}
            Said::Bad => return Err(Stop::Refused(BAD_REQUEST)),
            Said::Select(_) => unreachable!(),
        }
    }
    Err(Stop::Refused(BAD_REQUEST))
}

// Reads the first instruction, and looks whether the door has the ID that it selects.
fn select<R: Wait, S: Source, D: Door>(
    rt: &R,
    alloc: Global,
    source: &mut S,
    unread: &mut Unread,
    piece: &mut [u8],
    door: &mut D,
) -> Result<Selected, Stop>
    requires { 0 < length piece.old }
    ensures selected { HasSelected D.id_of (D.view door.old).sessions (S.left source.old) (S.left source.new) unread.old unread.new result }
    ensures early { IfErr result (IsEarly ⊥) }
    ensures looks { Looks (D.view door.old) (D.view door.new) }
    ensures reads { CountsFault (result ≡ Err Stop.ReadFault) (S.faults source.old) (S.faults source.new) }
{
    match hear(alloc, source, unread, piece, Expected::Select)? {
        Said::Select(name) => look(rt, door, name),
        Said::Bad => Err(Stop::Refused(BAD_REQUEST)),
        Said::Size(_) | Said::Ask(_) | Said::Other => unreachable!(),
    }
}

// What is selected by the name.
fn look<R: Wait, D: Door>(rt: &R, door: &mut D, name: Text) -> Result<Selected, Stop>
    ensures found { IsFound D.id_of (D.view door.old).sessions name result }
    ensures early { IfErr result (IsEarly ⊥) }
    ensures looks { Looks (D.view door.old) (D.view door.new) }
{
    if name.as_str() == "telnet" {
        return Ok(Selected::Telnet);
    }
    if door.known(rt, name.as_str()) {
        Ok(Selected::Known(name))
    } else {
        Err(Stop::Refused(NOT_FOUND))
    }
}

// Reads what the client asks, and writes the parameters as soon as it has selected something known.
fn read_request<R: Wait, S: Source, K: Sink, D: Door>(
    rt: &R,
    alloc: Global,
    source: &mut S,
    sink: &mut K,
    unread: &mut Unread,
    door: &mut D,
) -> Result<Request, Stop>
    ensures request { HasAsked D.id_of (D.view door.old).sessions (S.left source.old) (S.left source.new) (K.written sink.old) (K.written sink.new) unread.old unread.new result }
    ensures looks { Looks (D.view door.old) (D.view door.new) }
    ensures early { IfErr result (IsEarly (Unit {0})) }
    ensures reads { CountsFault (result ≡ Err Stop.ReadFault) (S.faults source.old) (S.faults source.new) }
    ensures writes { CountsFault (result ≡ Err Stop.WriteFault) (K.faults sink.old) (K.faults sink.new) }
{
    let mut piece = vec![in alloc; 0u8; PIECE]?;
    let selected = select(rt, alloc, source, unread, &mut piece, door)?;
    write_args(sink, &selected)?;
    connect(alloc, source, unread, &mut piece, &selected)
}

// Tells the client its session; where that fails the place goes back to the door.
fn ready<R: Wait, K: Sink, D: Door>(
    rt: &R,
    alloc: Global,
    sink: &mut K,
    door: &mut D,
    welcome: Welcome<D::Place>,
) -> Greeted<D::Place>
    ensures told { IsToldReady welcome (K.written sink.old) (K.written sink.new) result }
    ensures writes { CountsFault (result ≡ Greeted.WriteFault) (K.faults sink.old) (K.faults sink.new) }
    ensures same { OnReady result (door.new ≡ door.old) }
    ensures keeps { HasKept (D.id_of welcome.id) result (D.view door.old) (D.view door.new) }
{
    match write_ready(alloc, sink, &welcome.id) {
        Ok(()) => Greeted::Ready(welcome),
        Err(stop) => {
            let Welcome {
                id,
                place,
                first: _,
            } = welcome;
            door.give(rt, id.as_str(), place);
            stopped(stop)
        }
    }
}

// Tells the client why it is refused.
fn refuse<P, K: Sink>(alloc: Global, sink: &mut K, status: u16) -> Greeted<P>
    ensures told { IsToldError status (K.written sink.old) (K.written sink.new) result }
    ensures writes { CountsFault (result ≡ Greeted.WriteFault) (K.faults sink.old) (K.faults sink.new) }
{
    match write_error(alloc, sink, status) {
        Ok(()) => Greeted::Refused(status),
        Err(stop) => stopped(stop),
    }
}

// The end of a greeting that stopped.
fn stopped<P>(stop: Stop) -> Greeted<P>
    ensures { result ≡ stopped_as stop }
{
    match stop {
        Stop::Refused(status) => Greeted::Refused(status),
        Stop::Ended => Greeted::Ended,
        Stop::ReadFault => Greeted::ReadFault,
        Stop::WriteFault => Greeted::WriteFault,
        Stop::NoMemory => Greeted::NoMemory,
    }
}

// Asks the door, and tells the client its answer.
fn serve<R: Threads + Wait + Copy + Send + 'static, K: Sink, D: Door>(
    rt: &R,
    alloc: Global,
    sink: &mut K,
    door: &mut D,
    request: &Request,
) -> Greeted<D::Place>
    requires may { MayAsk request.now }
    ensures served { IsServed (MayRefuse D.id_of (D.view door.old) (D.view door.new)) (Names D.id_of (D.view door.old) (D.view door.new)) (Grants (D.begun door.new) (D.joined door.new)) request.now (K.written sink.old) (K.written sink.new) (D.view door.old).asked (D.view door.new).asked result }
    ensures touches { Touches D.id_of result (D.view door.old) (D.view door.new) }
    ensures faults { CountsFaults (result ≡ Greeted.Refused 519) (result ≡ Greeted.Refused 513) (D.view door.old).helper (D.view door.new).helper }
    ensures fresh { IfReady result (λ place first. D.Place.fresh place first) }
    ensures writes { CountsFault (result ≡ Greeted.WriteFault) (K.faults sink.old) (K.faults sink.new) }
{
    match ask(rt, alloc, door, request) {
        Ok(welcome) => ready(rt, alloc, sink, door, welcome),
        Err(refused) => refuse(alloc, sink, status_of(refused)),
    }
}

fn converse<R: Threads + Wait + Copy + Send + 'static, S: Source, K: Sink, D: Door>(
    rt: &R,
    alloc: Global,
    source: &mut S,
    sink: &mut K,
    unread: &mut Unread,
    door: &mut D,
) -> Greeted<D::Place>
    requires { unread.old ≡ [] }
    ensures greeting { IsGreeting D.id_of (Grants (D.begun door.new) (D.joined door.new)) (D.view door.old) (D.view door.new) (S.left source.old) (S.left source.new) (K.written sink.old) (K.written sink.new) unread.new result }
    ensures touches { Touches D.id_of result (D.view door.old) (D.view door.new) }
    ensures faults { CountsFaults (result ≡ Greeted.Refused 519) (result ≡ Greeted.Refused 513) (D.view door.old).helper (D.view door.new).helper }
    ensures fresh { IfReady result (λ place first. D.Place.fresh place first) }
    ensures reads { CountsFault (result ≡ Greeted.ReadFault) (S.faults source.old) (S.faults source.new) }
    ensures writes { CountsFault (result ≡ Greeted.WriteFault) (K.faults sink.old) (K.faults sink.new) }
{
    match read_request(rt, alloc, source, sink, unread, door) {
        Ok(request) => serve(rt, alloc, sink, door, &request),
        Err(Stop::Refused(status)) => refuse(alloc, sink, status),
        Err(Stop::Ended) => Greeted::Ended,
        Err(Stop::ReadFault) => Greeted::ReadFault,
        Err(Stop::WriteFault) => Greeted::WriteFault,
        Err(Stop::NoMemory) => Greeted::NoMemory,
    }
}

/// Greets a client: reads instructions up to `connect`, asks the door what they ask, and writes the answer.
/// `rest` is left holding the bytes that were read and aren't part of those instructions; what it held before
/// is let go. A place that the client couldn't be told of goes back to the door, to the session that gave it:
/// no other session is touched.
pub fn greet<R: Threads + Wait + Copy + Send + 'static, S: Source, K: Sink, D: Door>(
    rt: &R,
    alloc: Global,
    source: &mut S,
    sink: &mut K,
    rest: &mut Vec<u8>,
    door: &mut D,
) -> Greeted<D::Place>
    ensures greeting { IsGreeting D.id_of (Grants (D.begun door.new) (D.joined door.new)) (D.view door.old) (D.view door.new) (S.left source.old) (S.left source.new) (K.written sink.old) (K.written sink.new) rest.new.items result }
    ensures touches { Touches D.id_of result (D.view door.old) (D.view door.new) }
    ensures refused { IfRefused result (HasCause (D.view door.old) (D.view door.new)) }
    ensures fresh { IfReady result (λ place first. D.Place.fresh place first) }
    ensures later { NeverFell (D.view door.old).helper (D.view door.new).helper }
    ensures reads { CountsFault (result ≡ Greeted.ReadFault) (S.faults source.old) (S.faults source.new) }
    ensures writes { CountsFault (result ≡ Greeted.WriteFault) (K.faults sink.old) (K.faults sink.new) }
{
    let mut unread = Unread::new(mem::replace(rest, Vec::new(alloc)));
    let greeted = converse(rt, alloc, source, sink, &mut unread, door);
    *rest = unread.into_vec();
    greeted
}
