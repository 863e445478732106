//! By its first byte a connection is a viewer's, or HTTP.

ghost use Rattle.std.specs.Prelude.{◌≡◌, ℕ, List};
ghost use Rattle.gate_outside.specs.Edge.{AtEnd, CountsFault, gained};
ghost use Rattle.gate_outside.specs.Helpers.{NeverFell};
ghost use Rattle.guac_handshake.specs.Doors.{Grants};
ghost use Rattle.http_tunnel.specs.Tunnels.{AreHome};
ghost use Rattle.gate_service.specs.Connections.{ConnRun, HasMessages, HasReadFault, HasWriteFault, IfMessages, IfUser, LeavesAlone, ServesViewer, UnlessMessages};
ghost use Rattle.gate_service.specs.Lookaheads.{faults_of, left_of, typed_of};
ghost use Rattle.gate_service.specs.Requests.{IsDue};
ghost use Rattle.gate_service.specs.Views.{gate_view};
ghost use Rattle.gate_service.specs.declared.requests.HttpEnd.TheVariants as ends;
ghost use Rattle.share_links.specs.Doors.{IsJoinedAs};

use crate::Lookahead;
use crate::messages::{asks_messages, serve_messages};
use crate::refusing::refuse;
use crate::requests::{HttpEnd, answer};
use gate_model::NoMemory;
use gate_outside::{Bell, Dice, Failed, Sink, Source};
use guac_handshake::Door;
use http_front::read_request;
use http_tunnel::Tunnel;
use id_table::Shelf;
use share_links::Linked;
use shared_desk::Place;
use std::alloc::Global;
use std::sync::Wait;
use std::thread::Threads;
use user_serve::{UserEnd, serve_user};
use ws_tunnel::WsRun;

/// How a connection ended (this project's own).
#[derive(Drop)]
pub enum ConnEnd {
    /// Its first byte is a digit, so it is a viewer's.
    User(UserEnd),
    /// Its first byte is another, so it is HTTP.
    Http(HttpEnd),
    /// It is HTTP, and its request asks for messages. The place is for the caller to give back to the door.
    Ws(WsRun),
    /// Its bytes ended before the first.
    Ended,
    /// The read of its first byte failed.
    ReadFault,
    /// Want of memory for a viewer's pastes, before more than its first byte is read.
    NoMemory,
}

/// Serves one connection. It looks at the first byte; where that is a digit, it serves a viewer by `serve_user`, over
/// that byte and what comes behind it, in which what is pasted is typed as keys, and the place of a visit is for the
/// caller to give back to the door. Where there is no memory for the pastes, the viewer is refused by the `error` of
/// 512. Where it is another byte, it reads one request. One whose path is `/websocket-tunnel` is the handshake of a
/// WebSocket (RFC 6455), over which a viewer is served by `ws_tunnel::ws_serve`; nothing is said of the bytes that are
/// read and written then. To every other one response is written: that of `share_links::link_request` for a whole
/// request whose path is `/links`, that of `http_tunnel::tunnel_request` for any other whole request, whose condition
/// and promise on the tunnels it has, the refusal's status with code 768 for a request that is refused, and 500 with
/// code 512 where memory is wanting. A connection that ends early, or whose read fails, is answered nothing (this
/// project's own).
pub fn connection<R, S, K, D, T, X, B>(
    rt: &R,
    alloc: Global,
    source: &mut Lookahead<S>,
    sink: &mut K,
    door: &mut Linked<'_, D>,
    tunnels: &mut T,
    dice: &mut X,
    bell: &B,
) -> ConnEnd
where
    R: Threads + Wait + Copy + Send + Sync + 'static,
    S: Source + Send,
    K: Sink + Send,
    D: Door<Place = Place>,
    T: Shelf<Tunnel>,
    X: Dice,
    B: Bell + Send,
    requires { AreHome (T.told tunnels.old) }
    ensures home { AreHome (T.told tunnels.new) }
    ensures ran { UnlessMessages result ((read : List ℕ) × (written : List ℕ) × (K.written sink.new ≡ gained (K.written sink.old) written) × ConnRun (IsDue D.id_of (Grants (D.begun door.new.door) (IsJoinedAs (D.joined door.new.door))) (gate_view (D.view door.old.door) (T.told tunnels.old) (X.helper dice.old)) (gate_view (D.view door.new.door) (T.told tunnels.new) (X.helper dice.new)) ((door.new ≡ door.old) × (tunnels.new ≡ tunnels.old) × (dice.new ≡ dice.old))) (left_of S.left source.old) (typed_of S.left source.old) (left_of S.left source.new) result read written) }
    ensures untouched { LeavesAlone (sink.new ≡ sink.old) (door.new ≡ door.old) ((tunnels.new ≡ tunnels.old) × (dice.new ≡ dice.old)) result }
    ensures ended { result ≡ ConnEnd.Http ends.Ended → AtEnd (left_of S.left source.new) }
    ensures viewer { IfUser result (ServesViewer D.id_of (Grants (D.begun door.new.door) (IsJoinedAs (D.joined door.new.door))) (D.view door.old.door) (D.view door.new.door) (typed_of S.left source.old) (left_of S.left source.new) (K.written sink.old) (K.written sink.new)) }
    ensures messages { IfMessages result (HasMessages D.id_of (Grants (D.begun door.new.door) (IsJoinedAs (D.joined door.new.door))) (D.view door.old.door) (D.view door.new.door) (left_of S.left source.old)) }
    ensures later { NeverFell (D.view door.old.door).helper (D.view door.new.door).helper }
    ensures faults { UnlessMessages result (CountsFault (HasReadFault result) (faults_of S.faults source.old) (faults_of S.faults source.new) × CountsFault (HasWriteFault result) (K.faults sink.old) (K.faults sink.new)) }
{
    let byte = match source.peek() {
        Ok(Some(byte)) => byte,
        Ok(None) => return ConnEnd::Ended,
        Err(Failed) => return ConnEnd::ReadFault,
    };
    if !byte.is_ascii_digit() {
        let mut room = Vec::new(alloc);
        let incoming = read_request(alloc, source, &mut room);
        if asks_messages(&incoming) {
            drop(incoming);
            return ConnEnd::Ws(serve_messages(rt, alloc, room, source, sink, door, bell));
        }
        return ConnEnd::Http(answer(rt, alloc, incoming, sink, door, tunnels, dice, bell));
    }
    match source.begin_pastes(alloc) {
        Ok(()) => ConnEnd::User(serve_user(rt, alloc, source, sink, door, bell)),
        Err(NoMemory) => {
            refuse(alloc, sink);
            ConnEnd::NoMemory
        }
    }
}
