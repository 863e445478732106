//! The response to one request over plain HTTP.

ghost use Rattle.std.specs.Prelude.{◌≡◌, ℕ, List, None, IfErr, IfOk, OnErr};
ghost use Rattle.gate_outside.specs.Edge.{CountsFault, gained};
ghost use Rattle.gate_outside.specs.Helpers.{NeverFell};
ghost use Rattle.guac_handshake.specs.Doors.{Grants};
ghost use Rattle.http_tunnel.specs.Tunnels.{AreHome};
ghost use Rattle.share_links.specs.Doors.{IsJoinedAs};
ghost use Rattle.gate_service.specs.Requests.{HasAnswered, IsDue, IsLinkAnswer, IsRefusal, IsSilent, OnSilent, Wrote};
ghost use Rattle.gate_service.specs.Views.{gate_view};

use gate_model::Bytes;
use gate_model::statuses::{BAD_REQUEST, NO_MEMORY};
use gate_outside::{Bell, Dice, Sink};
use guac_handshake::Door;
use http_front::{Incoming, ReplyFault, Request, Response, write_response};
use http_tunnel::{Tunnel, tunnel_request};
use id_table::Shelf;
use share_links::{Linked, is_links_path, link_request};
use shared_desk::Place;
use std::alloc::Global;
use std::sync::Wait;
use std::thread::Threads;

/// How a connection ended that isn't a viewer's (this project's own).
#[derive(Clone, Copy, Debug, PartialEq, Eq)]
pub enum HttpEnd {
    /// The response with this status was written whole.
    Answered(u16),
    /// Its bytes ended before a whole request. Nothing is written.
    Ended,
    /// A read of the request failed. Nothing is written.
    ReadFault,
    /// A write of the response failed. A front of it is written.
    WriteFault,
    /// Want of memory for the response. Nothing is written.
    NoMemory,
}

/// Writes the response that is due for what came: that of `link_request` for a whole request whose path is `/links`,
/// that of `tunnel_request` for any other whole request, the refusal's status with code 768 for one that is refused,
/// and 500 with code 512 where memory is wanting. Bytes that end early, and a read that fails, are answered by nothing,
/// and then nothing else is done (this project's own).
pub(crate) fn answer<R, K, D, T, X, B>(
    rt: &R,
    alloc: Global,
    incoming: Incoming<'_>,
    sink: &mut K,
    door: &mut Linked<'_, D>,
    tunnels: &mut T,
    dice: &mut X,
    bell: &B,
) -> HttpEnd
where
    R: Threads + Wait + Copy + Send + 'static,
    K: Sink,
    D: Door<Place = Place>,
    T: Shelf<Tunnel>,
    X: Dice,
    B: Bell,
    requires { AreHome (T.told tunnels.old) }
    ensures home { AreHome (T.told tunnels.new) }
    ensures ran { (written : List ℕ) × (K.written sink.new ≡ gained (K.written sink.old) written) × HasAnswered (IsDue D.id_of (Grants (D.begun door.new.door) (IsJoinedAs (D.joined door.new.door))) (gate_view (D.view door.old.door) (T.told tunnels.old) (X.helper dice.old)) (gate_view (D.view door.new.door) (T.told tunnels.new) (X.helper dice.new)) ((door.new ≡ door.old) × (tunnels.new ≡ tunnels.old) × (dice.new ≡ dice.old))) incoming.entry result written }
    ensures silent { OnSilent result ((sink.new ≡ sink.old) × (door.new ≡ door.old) × (tunnels.new ≡ tunnels.old) × (dice.new ≡ dice.old)) }
    ensures later { NeverFell (D.view door.old.door).helper (D.view door.new.door).helper }
    ensures writes { CountsFault (result ≡ HttpEnd.WriteFault) (K.faults sink.old) (K.faults sink.new) }
{
    match respond(rt, alloc, incoming, door, tunnels, dice, bell) {
        Ok(response) => write(alloc, sink, &response),
        Err(end) => end,
    }
}

// The response that is due for what came, or how the connection ends without one.
fn respond<R, D, T, X, B>(
    rt: &R,
    alloc: Global,
    incoming: Incoming<'_>,
    door: &mut Linked<'_, D>,
    tunnels: &mut T,
    dice: &mut X,
    bell: &B,
) -> Result<Response, HttpEnd>
where
    R: Threads + Wait + Copy + Send + 'static,
    D: Door<Place = Place>,
    T: Shelf<Tunnel>,
    X: Dice,
    B: Bell,
    requires { AreHome (T.told tunnels.old) }
    ensures home { AreHome (T.told tunnels.new) }
    ensures due { IfOk result (IsDue D.id_of (Grants (D.begun door.new.door) (IsJoinedAs (D.joined door.new.door))) (gate_view (D.view door.old.door) (T.told tunnels.old) (X.helper dice.old)) (gate_view (D.view door.new.door) (T.told tunnels.new) (X.helper dice.new)) ((door.new ≡ door.old) × (tunnels.new ≡ tunnels.old) × (dice.new ≡ dice.old)) incoming.entry) }
    ensures silent { IfErr result (IsSilent incoming.entry) }
    ensures nothing { OnErr result ((door.new ≡ door.old) × (tunnels.new ≡ tunnels.old) × (dice.new ≡ dice.old)) }
    ensures later { NeverFell (D.view door.old.door).helper (D.view door.new.door).helper }
{
    match incoming {
        Incoming::Whole(request) => {
            if is_links_path(request.target) {
                Ok(share(rt, alloc, &request, door, dice))
            } else {
                Ok(tunnel_request(rt, alloc, tunnels, &request, door, dice, bell))
            }
        }
        Incoming::Refused(status) => Ok(refusal(alloc, status, BAD_REQUEST)),
        Incoming::NoMemory => Ok(refusal(alloc, 500, NO_MEMORY)),
        Incoming::Ended => Err(HttpEnd::Ended),
        Incoming::ReadFault => Err(HttpEnd::ReadFault),
    }
}

// Answers a request for links, at the door that has none.
fn share<R, D, X>(
    rt: &R,
    alloc: Global,
    request: &Request<'_>,
    door: &mut Linked<'_, D>,
    dice: &mut X,
) -> Response
where
    R: Wait,
    D: Door,
    X: Dice,
    ensures shared { IsLinkAnswer D.id_of (gate_view (D.view door.old.door) None (X.helper dice.old)) request.now result }
    ensures helper { (D.view door.new.door).helper ≡ (D.view door.old.door).helper }
{
    let links = door.links;
    let mut links = links.lock(rt);
    link_request(rt, alloc, &mut links, request, &mut door.door, dice)
}

// An empty response.
fn refusal(alloc: Global, status: u16, code: u16) -> Response
    ensures { IsRefusal status code result }
{
    Response {
        status,
        code,
        body: Bytes::of(Vec::new(alloc)),
    }
}

// Writes the response, and says how that ended.
fn write<K: Sink>(alloc: Global, sink: &mut K, response: &Response) -> HttpEnd
    ensures wrote { (written : List ℕ) × (K.written sink.new ≡ gained (K.written sink.old) written) × Wrote response.now result written }
    ensures faults { CountsFault (result ≡ HttpEnd.WriteFault) (K.faults sink.old) (K.faults sink.new) }
{
    match write_response(alloc, sink, response) {
        Ok(()) => HttpEnd::Answered(response.status),
        Err(ReplyFault::WriteFault) => HttpEnd::WriteFault,
        Err(ReplyFault::NoMemory) => HttpEnd::NoMemory,
    }
}
