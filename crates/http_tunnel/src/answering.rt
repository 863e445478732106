//! One request, answered.

ghost use Rattle.std.specs.Prelude.{◌≡◌, ℕ, List, Err, Result};
ghost use Rattle.gate_outside.specs.Helpers.{CountsFaults};
ghost use Rattle.guac_handshake.specs.Doors.{Grants};
ghost use Rattle.http_front.specs.Refusals.{IsResponse};
ghost use Rattle.http_tunnel.specs.Requests.{Serves, without_body};
ghost use Rattle.http_tunnel.specs.Routes.{IsAsked, route_of};
ghost use Rattle.http_tunnel.specs.Tunnels.{AreHome};
ghost use Rattle.http_front.specs.declared.refusal.Refusal.{Refusal};
ghost use Rattle.http_front.specs.declared.refusal.Refusal.TheVariants.{Busy, Dial};

use crate::connect::connect;
use crate::read::read;
use crate::route::{Route, find_route};
use crate::tunnel::Tunnel;
use crate::write::write;
use gate_model::Bytes;
use gate_outside::{Bell, Dice};
use guac_handshake::Door;
use http_front::{Refusal, Request, Response};
use id_table::Shelf;
use shared_desk::Place;
use std::alloc::Global;
use std::sync::Wait;
use std::thread::Threads;

fn without_body(alloc: Global, done: Result<(), Refusal>) -> Result<Bytes, Refusal>
    ensures { result ≡ without_body done }
{
    match done {
        Ok(()) => Ok(Bytes::of(Vec::new(alloc))),
        Err(refusal) => Err(refusal),
    }
}

// Does what a request asks.
fn serve<R, T, D, B, X>(
    rt: &R,
    alloc: Global,
    tunnels: &mut T,
    route: Route,
    body: &[u8],
    door: &mut D,
    dice: &mut X,
    bell: &B,
) -> Result<Bytes, Refusal>
where
    R: Threads + Wait + Copy + Send + 'static,
    T: Shelf<Tunnel>,
    D: Door<Place = Place>,
    B: Bell,
    X: Dice,
    requires home { AreHome (T.told tunnels.old) }
    requires route { IsAsked route }
    ensures home { AreHome (T.told tunnels.new) }
    ensures served { Serves D.id_of (Grants (D.begun door.new) (D.joined door.new)) (D.view door.old) (D.view door.new) (X.helper dice.old).draws (T.told tunnels.old) (T.told tunnels.new) body.now result route }
    ensures faults { CountsFaults (result ≡ Err Dial) (result ≡ Err Busy) (D.view door.old).helper (D.view door.new).helper }
{
    match route {
        Route::Connect => connect(rt, alloc, tunnels, body, door, dice),
        Route::Read(id) => read(rt, alloc, tunnels, &id, door, bell),
        Route::Write(id) => {
            without_body(alloc, write(rt, alloc, tunnels, &id, body, door, bell))
        }
        Route::Refused(refusal) => Err(refusal),
    }
}

/// Answers one request: a tunnel to a session, what its viewer is given, or that what its viewer sends was written
/// (this project's own rule, after the tunnel of guacamole-common). Between two requests each tunnel that is there has
/// its reader's pass and isn't lent, where the shelf tells. The status is by the first cause that holds: what the
/// request's method and target ask, whether the tunnel is there, its body's form, and what the door or the session
/// answers. Want of memory alone is free.
pub fn tunnel_request<R, T, D, B, X>(
    rt: &R,
    alloc: Global,
    tunnels: &mut T,
    request: &Request<'_>,
    door: &mut D,
    dice: &mut X,
    bell: &B,
) -> Response
where
    R: Threads + Wait + Copy + Send + 'static,
    T: Shelf<Tunnel>,
    D: Door<Place = Place>,
    B: Bell,
    X: Dice,
    requires { AreHome (T.told tunnels.old) }
    ensures home { AreHome (T.told tunnels.new) }
    ensures answered { (answered : Result (List ℕ) Refusal) × IsResponse answered result × Serves D.id_of (Grants (D.begun door.new) (D.joined door.new)) (D.view door.old) (D.view door.new) (X.helper dice.old).draws (T.told tunnels.old) (T.told tunnels.new) request.now.body.now answered (route_of request.now.method request.now.target.now) }
    ensures faults { CountsFaults (result.status ≡ 502) (result.status ≡ 503) (D.view door.old).helper (D.view door.new).helper }
{
    let route = find_route(
        request.method.as_str().as_bytes(),
        request.target.as_bytes(),
    );
    let answered = serve(rt, alloc, tunnels, route, request.body, door, dice, bell);
    Response::of(alloc, answered)
}
