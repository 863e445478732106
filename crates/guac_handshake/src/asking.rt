//! What a door is asked.

ghost use Rattle.std.specs.Prelude.{IfOk};
ghost use Rattle.guac_handshake.specs.Asks.{MayAsk};
ghost use Rattle.guac_handshake.specs.Doors.{Grants};
ghost use Rattle.guac_handshake.specs.Greetings.{IsAnswered};

use crate::{Door, Refused, Request, Welcome};
use std::alloc::Global;
use std::sync::Wait;
use std::thread::Threads;

/// Asks the door.
pub(crate) fn ask<R: Threads + Wait + Copy + Send + 'static, D: Door>(
    rt: &R,
    alloc: Global,
    door: &mut D,
    request: &Request,
) -> Result<Welcome<D::Place>, Refused>
    requires may { MayAsk request.now }
    ensures answers { IsAnswered D.id_of request.now result (D.view door.old) (D.view door.new) }
    ensures fresh { IfOk result (λ welcome. D.Place.fresh welcome.place welcome.first) }
    ensures granted { IfOk result (λ welcome. Grants (D.begun door.new) (D.joined door.new) request.now welcome) }
{
    match request {
        Request::Begin(ask) => door.begin(rt, alloc, ask),
        Request::Join { id, asked } => door.join(rt, alloc, id.as_str(), *asked),
    }
}
