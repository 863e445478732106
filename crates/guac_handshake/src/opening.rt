//! A place for the form of an HTTP request.

ghost use Rattle.std.specs.Prelude.{IfOk};
ghost use Rattle.guac_handshake.specs.Doors.{Grants};
ghost use Rattle.guac_handshake.specs.Opening.{AnswersForm, IsThere};
ghost use Rattle.guac_handshake.specs.Views.{Looks};

use crate::asking::ask;
use crate::form::read_form;
use crate::{Door, FormRefusal, Refused, Request, Welcome};
use std::alloc::Global;
use std::sync::Wait;
use std::thread::Threads;

// Whether the session that is asked for is there; one that is to begin is asked for anyhow.
fn is_there<R: Wait, D: Door>(rt: &R, door: &mut D, request: &Request) -> bool
    ensures there { IsThere D.id_of (D.view door.old).sessions request.now result }
    ensures looks { Looks (D.view door.old) (D.view door.new) }
{
    match request {
        Request::Begin(_) => true,
        Request::Join { id, .. } => door.known(rt, id.as_str()),
    }
}

/// Asks the door what the form of a connection asks, an `application/x-www-form-urlencoded` body (the URL standard,
/// section 5; its fields are this project's own): with `id` a place in that session, else a session that is to begin
/// at `hostname`. The last value of a field counts.
///
/// Form comes exactly where the body isn't of the form: a pair isn't UTF-8 once it is decoded, a port, size, type
/// or sharing is out of form, or neither `id` nor `hostname` is given; the door isn't asked then. Door has what the
/// door refused, or Absent where it doesn't know the ID. NoMemory alone is free.
pub fn open_form<R: Threads + Wait + Copy + Send + 'static, D: Door>(
    rt: &R,
    alloc: Global,
    body: &[u8],
    door: &mut D,
) -> Result<Welcome<D::Place>, FormRefusal>
    ensures answers { AnswersForm D.id_of (Grants (D.begun door.new) (D.joined door.new)) (D.view door.old) (D.view door.new) body.now result }
    ensures fresh { IfOk result (λ welcome. D.Place.fresh welcome.place welcome.first) }
{
    let request = read_form(alloc, body)?;
    if !is_there(rt, door, &request) {
        return Err(FormRefusal::Door(Refused::Absent));
    }
    match ask(rt, alloc, door, &request) {
        Ok(welcome) => Ok(welcome),
        Err(refused) => Err(FormRefusal::Door(refused)),
    }
}
