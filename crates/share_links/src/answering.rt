//! One request, answered.

ghost use Rattle.std.specs.Prelude.{◌≡◌, ◌≤◌, ℕ, List, [], Result, vec_capacity};
ghost use Rattle.guac_handshake.specs.Views.{Looks};
ghost use Rattle.share_links.specs.Links.{links_of};
ghost use Rattle.http_front.specs.Refusals.{IsResponse};
ghost use Rattle.share_links.specs.Requests.{MakeOf, RevokeOf, Serves, name_of_link, refused_form, refused_make};
ghost use Rattle.share_links.specs.Routes.{route_of};
ghost use Rattle.http_front.specs.declared.refusal.Refusal.{Refusal};

use crate::form::{Wanted, read_form};
use crate::route::{Route, find_route};
use crate::table::{LinkRefusal, LinkTable};
use gate_model::Bytes;
use gate_outside::Dice;
use guac_handshake::{Door, FormRefusal, NAME_BYTES};
use http_front::{Refusal, Request, Response};
use std::alloc::Global;
use std::sync::Wait;
use uuid::Uuid;

fn refused_form(refusal: FormRefusal) -> Refusal
    ensures { result ≡ refused_form refusal }
{
    match refusal {
        FormRefusal::Form => Refusal::Form,
        FormRefusal::Door(_) | FormRefusal::NoMemory => Refusal::NoMemory,
    }
}

fn refused_make(refusal: &LinkRefusal) -> Refusal
    ensures { result ≡ refused_make refusal.now }
{
    match refusal {
        LinkRefusal::Conflict(_) => Refusal::Conflict,
        LinkRefusal::NoMemory => Refusal::NoMemory,
    }
}

// The name of a link, in room that was taken before.
fn name_in(room: Vec<u8>, link: Uuid) -> Bytes
    requires empty { room.items ≡ [] }
    requires room { 37 ≤ vec_capacity room }
    ensures { result ≡ name_of_link link }
{
    let mut name = room;
    name.push_reserved(b'$');
    let mut buffer = Uuid::encode_buffer();
    let text = link.hyphenated().encode_lower(&mut buffer);
    name.extend_from_slice(text.as_bytes()).unwrap();
    Bytes::of(name)
}

// Makes the link that a form wants, and answers its name.
fn make<R: Wait, D: Door, X: Dice>(
    rt: &R,
    alloc: Global,
    links: &mut LinkTable,
    body: &[u8],
    door: &mut D,
    dice: &mut X,
) -> Result<Bytes, Refusal>
    ensures made { MakeOf D.id_of (D.view door.old).sessions (X.helper dice.old).draws body.now (links_of links.old) (links_of links.new) result }
    ensures looks { Looks (D.view door.old) (D.view door.new) }
{
    let Ok(room) = Vec::with_capacity(alloc, NAME_BYTES) else {
        return Err(Refusal::NoMemory);
    };
    let wanted = match read_form(alloc, body) {
        Ok(wanted) => wanted,
        Err(refusal) => return Err(refused_form(refusal)),
    };
    if !door.known(rt, wanted.id.as_str()) {
        return Err(Refusal::NotFound);
    }
    let Wanted { id, control, uses } = wanted;
    match links.make(alloc, dice, id.as_str(), control, uses) {
        Ok(link) => Ok(name_in(room, link)),
        Err(refusal) => Err(refused_make(&refusal)),
    }
}

// Revokes a link, and answers nothing.
fn revoke(alloc: Global, links: &mut LinkTable, link: &Uuid) -> Result<Bytes, Refusal>
    ensures { RevokeOf link.now (links_of links.old) (links_of links.new) result }
{
    if links.revoke(link) {
        Ok(Bytes::of(Vec::new(alloc)))
    } else {
        Err(Refusal::NotFound)
    }
}

/// Answers one request of the path `/links`: a link to a session is made, which answers its name, or one is revoked (this
/// project's own rule). The status is by the first cause that holds: what the request's method and target ask, whether
/// the link that is to be revoked is there, the form of the body of one that is to be made, whether the door knows the
/// session, and whether four drawn IDs were all there. Want of memory alone is free, and leaves the links as they were. The
/// door is only asked whether it knows a session.
pub fn link_request<R: Wait, D: Door, X: Dice>(
    rt: &R,
    alloc: Global,
    links: &mut LinkTable,
    request: &Request<'_>,
    door: &mut D,
    dice: &mut X,
) -> Response
    ensures answered { (answered : Result (List ℕ) Refusal) × IsResponse answered result × Serves D.id_of (D.view door.old).sessions (X.helper dice.old).draws request.now.body.now (links_of links.old) (links_of links.new) answered (route_of request.now.method request.now.target.now) }
    ensures looks { Looks (D.view door.old) (D.view door.new) }
{
    let route = find_route(
        request.method.as_str().as_bytes(),
        request.target.as_bytes(),
    );
    let answered = match route {
        Route::Make => make(rt, alloc, links, request.body, door, dice),
        Route::Revoke(link) => revoke(alloc, links, &link),
        Route::Refused(refusal) => Err(refusal),
    };
    Response::of(alloc, answered)
}
