//! One request out of a source.

ghost use Rattle.std.specs.Prelude.{◌≡◌, ℕ, ◌+◌, ◌<◌, ◌≤◌, List, [], IfOk, IfErr, OnErr, OnOk, length, true, false, Err};
ghost use Rattle.gate_outside.specs.Edge.{AtEnd, CountsFault, came};
ghost use Rattle.http_front.specs.Moved.{IsBodyStop, IsReadStop, Moved};
ghost use Rattle.http_front.specs.Requests.{HasStopped, IsReceived, IsRequest, IsTaken, OnEnded, Receives};

use crate::head::{Head, Judged, MOST_HEAD, judge};
use crate::stop::Stop;
use crate::{Incoming, Request};
use gate_outside::{Failed, Source};
use http::Method;
use http::method::MethodError;
use std::alloc::Global;
use std::str;

/// How many bytes are read at once.
const PIECE: usize = 4096;

// Reads once, at most so many bytes, and answers whether bytes came; where none came the source is at its end.
// `piece` is where they are put first, and isn't empty.
fn read_some<S: Source>(
    source: &mut S,
    piece: &mut [u8],
    most: usize,
    room: &mut Vec<u8>,
) -> Result<bool, Stop>
    requires some { 0 < length piece.old }
    requires more { 0 < most }
    ensures moved { Moved (S.left source.old) (S.left source.new) room.old.items room.new.items }
    ensures more { IfOk result (λ more. more ≡ true → length room.old.items < length room.new.items) }
    ensures few { length room.new.items ≤ length room.old.items + most }
    ensures end { IfOk result (λ more. more ≡ false → (room.new.items ≡ room.old.items) × AtEnd (S.left source.new)) }
    ensures kept { length piece.new ≡ length piece.old }
    ensures stopped { OnErr result (room.new.items ≡ room.old.items) }
    ensures kind { IfErr result IsReadStop }
    ensures faults { CountsFault (result ≡ Err Stop.ReadFault) (S.faults source.old) (S.faults source.new) }
{
    let most = most.min(piece.len());
    room.reserve(most)?;
    match source.read(&mut piece[..most]) {
        Ok(count) => {
            room.extend_from_slice(&piece[..count]).unwrap();
            Ok(count > 0)
        }
        Err(Failed) => Err(Stop::ReadFault),
    }
}

// Reads a head into the room, which holds nothing.
fn read_head<S: Source>(source: &mut S, piece: &mut [u8], room: &mut Vec<u8>) -> Result<Head, Stop>
    requires some { 0 < length piece.old }
    requires empty { room.old.items ≡ [] }
    ensures moved { Moved (S.left source.old) (S.left source.new) [] room.new.items }
    ensures taken { IfOk result (λ head. IsTaken room.new.items head × (head.body ≤ 16384)) }
    ensures stopped { IfErr result (HasStopped room.new.items) }
    ensures kept { length piece.new ≡ length piece.old }
    ensures ended { IfErr result (λ stop. stop ≡ Stop.Ended → AtEnd (S.left source.new)) }
    ensures faults { CountsFault (result ≡ Err Stop.ReadFault) (S.faults source.old) (S.faults source.new) }
{
    loop {
        match judge(room) {
            Judged::Taken(head) => return Ok(head),
            Judged::Refused(status) => return Err(Stop::Refused(status)),
            Judged::More => {}
        }
        if room.len() >= MOST_HEAD {
            return Err(Stop::Refused(431));
        }
        let most = MOST_HEAD - room.len();
        if !read_some(source, piece, most, room)? {
            return Err(Stop::Ended);
        }
    }
}

// Reads until the room has so many bytes.
fn read_body<S: Source>(
    source: &mut S,
    piece: &mut [u8],
    whole: usize,
    room: &mut Vec<u8>,
) -> Result<(), Stop>
    requires { 0 < length piece.old }
    ensures moved { Moved (S.left source.old) (S.left source.new) room.old.items room.new.items }
    ensures whole { OnOk result (whole ≤ length room.new.items) }
    ensures short { OnErr result (length room.new.items < whole) }
    ensures kind { IfErr result IsBodyStop }
    ensures ended { IfErr result (λ stop. stop ≡ Stop.Ended → AtEnd (S.left source.new)) }
    ensures faults { CountsFault (result ≡ Err Stop.ReadFault) (S.faults source.old) (S.faults source.new) }
{
    while room.len() < whole {
        let most = whole - room.len();
        if !read_some(source, piece, most, room)? {
            return Err(Stop::Ended);
        }
    }
    Ok(())
}

// Reads a head and its body into the room.
fn receive<S: Source>(source: &mut S, room: &mut Vec<u8>) -> Result<Head, Stop>
    ensures moved { Moved (S.left source.old) (S.left source.new) [] room.new.items }
    ensures received { IfOk result (IsReceived room.new.items) }
    ensures stopped { IfErr result (HasStopped room.new.items) }
    ensures ended { IfErr result (λ stop. stop ≡ Stop.Ended → AtEnd (S.left source.new)) }
    ensures faults { CountsFault (result ≡ Err Stop.ReadFault) (S.faults source.old) (S.faults source.new) }
{
    room.clear();
    let mut piece = [0; PIECE];
    let head = read_head(source, &mut piece, room)?;
    read_body(source, &mut piece, head.body + head.size, room)?;
    Ok(head)
}

// The request of a room that holds it whole.
fn request_in<'a>(alloc: Global, room: &'a [u8], head: &Head) -> Result<Request<'a>, Stop>
    requires { IsReceived room.now head.now }
    ensures request { IfOk result (IsRequest room.now) }
    ensures kind { IfErr result (λ stop. stop ≡ Stop.NoMemory) }
{
    let method = match Method::from_bytes(alloc, head.method.of(room)) {
        Ok(method) => method,
        Err(MethodError::OutOfMemory) => return Err(Stop::NoMemory),
        Err(MethodError::Invalid) => unreachable!(),
    };
    Ok(Request {
        method,
        target: str::from_utf8(head.target.of(room)).unwrap(),
        body: &room[head.body..head.body + head.size],
    })
}

/// Reads one request (RFC 9112): a head, and as many bytes of body as `Content-Length` says. `room` is emptied first,
/// and holds what is read: the target and the body are parts of it.
///
/// Refused comes with 431 where 16,384 bytes have no whole head or a head has more than 64 fields, 400 where no
/// bytes that follow can make a head, or a `Content-Length` isn't 1 to 20 digits or is given twice with different
/// numbers, 501 where `Transfer-Encoding` is given, and 413 where the body is longer than 1,048,576 bytes; the first
/// that holds. Ended comes only at the source's end before a whole request, and ReadFault only where the source's
/// count of faults rose in this call. Bytes past the request may have been read; they have no meaning.
pub fn read_request<'a, S: Source>(
    alloc: Global,
    source: &mut S,
    room: &'a mut Vec<u8>,
) -> Incoming<'a>
    ensures received { (bytes : List ℕ) × (S.left source.old ≡ came bytes (S.left source.new)) × Receives bytes result }
    ensures ended { OnEnded result (AtEnd (S.left source.new)) }
    ensures faults { CountsFault (result ≡ Incoming.ReadFault) (S.faults source.old) (S.faults source.new) }
{
    let received = receive(source, room);
    let answer = match received {
        Ok(head) => request_in(alloc, room, &head),
        Err(stop) => Err(stop),
    };
    match answer {
        Ok(request) => Incoming::Whole(request),
        Err(Stop::Refused(status)) => Incoming::Refused(status),
        Err(Stop::Ended) => Incoming::Ended,
        Err(Stop::ReadFault) => Incoming::ReadFault,
        Err(Stop::NoMemory) => Incoming::NoMemory,
    }
}
