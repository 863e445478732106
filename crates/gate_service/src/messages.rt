//! A viewer over messages, on a connection whose request asks for them.

ghost use Rattle.std.specs.Prelude.{◌≡◌, ℕ, List, None, option_copied};
ghost use Rattle.guac_handshake.specs.Doors.{Grants};
ghost use Rattle.gate_service.specs.Messages.{asks_messages, query_of};
ghost use Rattle.ws_tunnel.specs.Served.{AsksDoor, HasServed};

use gate_outside::{Bell, Sink, Source, write_all};
use guac_handshake::Door;
use http_front::Incoming;
use shared_desk::Place;
use std::alloc::Global;
use std::sync::Wait;
use std::thread::Threads;
use ws_link::WsLink;
use ws_tunnel::{WsRun, ws_serve};

// What a handshake that can't be read is answered (RFC 6455, section 4.4).
const REFUSAL: &[u8] =
    b"HTTP/1.1 400 Bad Request\r\nSec-WebSocket-Version: 13\r\nConnection: close\r\nContent-Length: 0\r\n\r\n";

// The query of a target whose path is that of messages.
fn query_of(target: &[u8]) -> Option<&[u8]>
    ensures { option_copied result ≡ query_of target.now }
{
    if target == b"/websocket-tunnel".as_slice() {
        Some(b"")
    } else {
        target.strip_prefix(b"/websocket-tunnel?")
    }
}

/// Whether what came asks for messages.
pub(crate) fn asks_messages(incoming: &Incoming<'_>) -> bool
    ensures { result ≡ asks_messages incoming.now }
{
    match incoming {
        Incoming::Whole(request) => query_of(request.target.as_bytes()).is_some(),
        Incoming::Refused(_) | Incoming::Ended | Incoming::ReadFault | Incoming::NoMemory => false,
    }
}

// Serves over the link, and says goodbye. It answers whether a handshake failed without an answer, too.
fn serve_over<R, S, K, D, B>(
    rt: &R,
    alloc: Global,
    link: &mut WsLink<'_, S, K>,
    door: &mut D,
    bell: &B,
) -> (WsRun, bool)
where
    R: Threads + Wait + Copy + Send + 'static,
    S: Source,
    K: Sink,
    D: Door<Place = Place>,
    B: Bell,
    ensures served { (received : List (List ℕ)) × (sent : List (List ℕ)) × HasServed result.0 None received sent }
    ensures asked { AsksDoor D.id_of (Grants (D.begun door.new) (D.joined door.new)) (D.view door.old) (D.view door.new) None result.0 }
{
    let run = ws_serve(rt, alloc, link, door, bell);
    link.close();
    let silent = link.is_silent();
    (run, silent)
}

/// Serves messages on a connection of which these bytes were read, its request whole. The handshake is made then; where
/// that can't be read it is answered by 400, and where a page of another origin asks, by 403. Nothing is said of the bytes
/// that are written (RFC 6455).
pub(crate) fn serve_messages<R, S, K, D, B>(
    rt: &R,
    alloc: Global,
    first: Vec<u8>,
    source: &mut S,
    sink: &mut K,
    door: &mut D,
    bell: &B,
) -> WsRun
where
    R: Threads + Wait + Copy + Send + 'static,
    S: Source,
    K: Sink,
    D: Door<Place = Place>,
    B: Bell,
    ensures served { (received : List (List ℕ)) × (sent : List (List ℕ)) × HasServed result None received sent }
    ensures asked { AsksDoor D.id_of (Grants (D.begun door.new) (D.joined door.new)) (D.view door.old) (D.view door.new) None result }
{
    let mut link = WsLink::new(alloc, first, source, sink);
    let (run, silent) = serve_over(rt, alloc, &mut link, door, bell);
    drop(link);
    if silent {
        let _ = write_all(sink, REFUSAL);
    }
    run
}
