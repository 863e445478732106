//! Whether another site's page makes a request: a browser says in the field `Sec-Fetch-Site` of its head whence it comes
//! (Fetch Metadata Request Headers, section 2.4), and no program but a browser sends it.
//!
//! `look` reads a head before it is served, so that such a request can be refused before anything is done for it, and
//! keeps the bytes for who serves it. Which fields are of another site is `IsForeign` of `specs/Fields.antt`.
#![tactic(auto)]

ghost use Rattle.std.specs.Prelude.{◌≡◌, ◌≢◌, ◌↔◌, ◌<◌, ◌≤◌, Ok, IfOk, IsTrue, length};
ghost use Rattle.gate_outside.specs.Edge.{CountsFault};
ghost use Rattle.http_front.specs.Moved.{Moved};
ghost use Rattle.fetch_site.specs.Fields.{IsForeign};
ghost use Rattle.fetch_site.specs.declared.Front.TheVariants.{Fault};

use gate_model::NoMemory;
use gate_outside::{Failed, Source};
use httparse::Status;
use httparse::spans::{EMPTY_HEADER_SPAN, HeaderSpan, parse_request};

// How many bytes are read at once.
const PIECE: usize = 4_096;

// The longest head, and the most fields of one, as in `http_front`.
const MOST_HEAD: usize = 16_384;

const MOST_FIELDS: usize = 64;

/// What stands at the front of a connection.
#[derive(Clone, Copy, Debug, PartialEq, Eq)]
pub enum Front {
    /// The head of a request that another site's page makes.
    Foreign,
    /// A read failed before that could be told.
    Fault,
    /// Anything else.
    Other,
}

/// Reads ahead until it can be told whether another site's page makes a request: to the end of a head, or to bytes that
/// begin none. What was read stands in the room behind what it had. A first byte that is a digit begins no request.
pub fn look<S: Source>(source: &mut S, room: &mut Vec<u8>) -> Result<Front, NoMemory>
    ensures moved { Moved (S.left source.old) (S.left source.new) room.old.items room.new.items }
    ensures faults { CountsFault (result ≡ Ok Fault) (S.faults source.old) (S.faults source.new) }
{
    let mut piece = [0; PIECE];
    for _ in 0..MOST_HEAD {
        if let Some(foreign) = judged(room) {
            return Ok(front_of(foreign));
        }
        match read_some(source, &mut piece, room)? {
            Read::Some => {}
            Read::End => return Ok(Front::Other),
            Read::Fault => return Ok(Front::Fault),
        }
    }
    Ok(Front::Other)
}

// What a read came to.
#[derive(Clone, Copy, Debug, PartialEq, Eq)]
enum Read {
    Some,
    End,
    Fault,
}

// Reads once, behind what the room has.
fn read_some<S: Source>(
    source: &mut S,
    piece: &mut [u8],
    room: &mut Vec<u8>,
) -> Result<Read, NoMemory>
    requires { 0 < length piece.old }
    ensures moved { Moved (S.left source.old) (S.left source.new) room.old.items room.new.items }
    ensures kept { length piece.new ≡ length piece.old }
    ensures faults { CountsFault (result ≡ Ok Read.Fault) (S.faults source.old) (S.faults source.new) }
{
    room.reserve(piece.len())?;
    match source.read(piece) {
        Ok(count) => {
            room.extend_from_slice(&piece[..count]).unwrap();
            Ok(if count > 0 { Read::Some } else { Read::End })
        }
        Err(Failed) => Ok(Read::Fault),
    }
}

// What stands at the front, of which it is told whether another site's page asks.
fn front_of(foreign: bool) -> Front
    ensures { result ≢ Fault }
{
    if foreign {
        Front::Foreign
    } else {
        Front::Other
    }
}

// Whether another site's page asks, where that can be told already.
fn judged(bytes: &[u8]) -> Option<bool> {
    if bytes.len() >= MOST_HEAD || bytes.first().is_some_and(|byte| byte.is_ascii_digit()) {
        return Some(false);
    }
    let mut fields = [EMPTY_HEADER_SPAN; MOST_FIELDS];
    match parse_request(bytes, &mut fields) {
        Ok(Status::Complete(spans)) => Some(has_foreign(bytes, &fields[..spans.headers])),
        Ok(Status::Partial) => None,
        Err(_) => Some(false),
    }
}

// Whether one of the fields says that another site's page asks.
fn has_foreign(bytes: &[u8], fields: &[HeaderSpan]) -> bool {
    for field in fields {
        let name = bytes.get(field.name.start..field.name.end).unwrap_or(&[]);
        let value = bytes.get(field.value.start..field.value.end).unwrap_or(&[]);
        if is_foreign(name, value) {
            return true;
        }
    }
    false
}

/// Whether a field says that a page of another site asks: it is `Sec-Fetch-Site`, in letters of either case, and neither
/// `same-origin` nor `none`, which a browser sends for an address that a person gave it.
pub fn is_foreign(name: &[u8], value: &[u8]) -> bool
    ensures { IsTrue result ↔ IsForeign name.now value.now }
{
    name.eq_ignore_ascii_case(b"sec-fetch-site")
        && value != b"same-origin".as_slice()
        && value != b"none".as_slice()
}
