//! The first message is a form, which asks for a place.

ghost use Rattle.std.specs.Prelude.{◌≡◌, Err, IfOk};
ghost use Rattle.gate_outside.specs.Edge.{CountsFault};
ghost use Rattle.guac_handshake.specs.Doors.{Grants};
ghost use Rattle.shared_desk.specs.Hosts.{IsFresh};
ghost use Rattle.ws_tunnel.specs.Served.{HasAnsweredForm, HasRefused, OpensDoor, status_for};
ghost use Rattle.ws_tunnel.specs.declared.ends.WsEnd.TheVariants as ends;

use crate::moving::{receive, send};
use crate::texts::error;
use crate::{Messages, WsEnd};
use gate_model::statuses::BAD_REQUEST;
use guac_handshake::{Door, FormRefusal, Refused, Welcome, open_form, status_of};
use shared_desk::Place;
use std::alloc::Global;
use std::sync::Wait;
use std::thread::Threads;

// The status that a form's refusal is told with.
fn status_for(refusal: FormRefusal) -> u16
    ensures { result ≡ status_for refusal }
{
    match refusal {
        FormRefusal::Form => BAD_REQUEST,
        FormRefusal::Door(refused) => status_of(refused),
        FormRefusal::NoMemory => status_of(Refused::NoMemory),
    }
}

// Sends `error` with the status, and says how that ends.
fn refuse<R: Wait, M: Messages>(rt: &R, alloc: Global, link: &mut M, status: u16) -> WsEnd
    ensures refused { HasRefused status (M.sent link.old) (M.sent link.new) result }
    ensures left { M.left link.new ≡ M.left link.old }
    ensures faults { CountsFault (result ≡ ends.LinkFault) (M.faults link.old) (M.faults link.new) }
{
    let Ok(text) = error(alloc, status) else {
        return WsEnd::NoMemory;
    };
    match send(rt, link, &text) {
        Ok(()) => WsEnd::Refused(status),
        Err(end) => end,
    }
}

/// Asks the door what the first message asks. Where it gives no place, the viewer is sent `error` with the reason's
/// status.
pub(crate) fn open<R, M, D>(
    rt: &R,
    alloc: Global,
    link: &mut M,
    door: &mut D,
) -> Result<Welcome<Place>, WsEnd>
where
    R: Threads + Wait + Copy + Send + 'static,
    M: Messages,
    D: Door<Place = Place>,
    ensures opened { OpensDoor D.id_of (Grants (D.begun door.new) (D.joined door.new)) (D.view door.old) (D.view door.new) (M.left link.old) (M.left link.new) (M.sent link.old) (M.sent link.new) result }
    ensures fresh { IfOk result (λ welcome. IsFresh welcome.place welcome.first) }
    ensures faults { CountsFault (result ≡ Err ends.LinkFault) (M.faults link.old) (M.faults link.new) }
{
    match receive(rt, alloc, link) {
        Ok(form) => open_for(rt, alloc, link, &form, door),
        Err(end) => Err(end),
    }
}

// Asks the door what a form asks.
fn open_for<R, M, D>(
    rt: &R,
    alloc: Global,
    link: &mut M,
    form: &[u8],
    door: &mut D,
) -> Result<Welcome<Place>, WsEnd>
where
    R: Threads + Wait + Copy + Send + 'static,
    M: Messages,
    D: Door<Place = Place>,
    ensures opened { HasAnsweredForm D.id_of (Grants (D.begun door.new) (D.joined door.new)) (D.view door.old) (D.view door.new) form.now (M.sent link.old) (M.sent link.new) result }
    ensures left { M.left link.new ≡ M.left link.old }
    ensures fresh { IfOk result (λ welcome. IsFresh welcome.place welcome.first) }
    ensures faults { CountsFault (result ≡ Err ends.LinkFault) (M.faults link.old) (M.faults link.new) }
{
    match open_form(rt, alloc, form, door) {
        Ok(welcome) => Ok(welcome),
        Err(refusal) => Err(refuse(rt, alloc, link, status_for(refusal))),
    }
}
