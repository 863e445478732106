//! A door at which links are names too.

ghost use Rattle.std.specs.Prelude.{◌≡◌, IfOk, IfErr};
ghost use Rattle.share_links.specs.Doors.{role_through};
ghost use Rattle.guac_handshake.specs.declared.refused.Refused.TheVariants.{NoMemory as no_memory};

use crate::table::LinkTable;
use gate_model::{Asked, Text};
use gate_outside::Way;
use guac_handshake::{Ask, Begun, Door, Refused, Welcome, id_named};
use std::alloc::Global;
use std::sync::Wait;

/// A door over an inner door and a table of links (this project's own). It lives for one call, under the lock of the
/// table. A name that the inner door knows goes to it; else `$` and the ID of a link is a name of that link's session.
///
/// It tells no sessions: a link that is spent is no name any more, and a join through one is the join of another name, so
/// its IDs aren't kept as a door keeps them. What it does is told in the words of the inner door.
#[derive(Drop)]
pub struct LinkDoor<'a, D> {
    inner: &'a mut D,
    links: &'a mut LinkTable,
}

impl<'a, D> LinkDoor<'a, D> {
    ghost use Rattle.std.specs.Prelude.{◌≡◌};

    /// A door over `inner` and `links`.
    pub fn new(inner: &'a mut D, links: &'a mut LinkTable) -> LinkDoor<'a, D>
        ensures inner { result.inner ≡ inner.entry }
        ensures links { result.links ≡ links.entry }
    {
        LinkDoor { inner, links }
    }
}

// A name as a text of its own.
fn copied(alloc: Global, name: &str) -> Result<Text, Refused>
    ensures text { IfOk result (λ text. text ≡ name.now) }
    ensures kind { IfErr result (λ refused. refused ≡ no_memory) }
{
    match String::from_str(alloc, name) {
        Ok(text) => Ok(Text::of(text)),
        Err(_) => Err(Refused::NoMemory),
    }
}

// The role that is asked for through a link: Control only where both the link has it and the joiner asks for it.
fn role_through(control: bool, role: Asked) -> Asked
    ensures { result ≡ role_through control role }
{
    match role {
        Asked::Control => { if control { Asked::Control } else { Asked::View } }
        Asked::Owner | Asked::View | Asked::Keep => Asked::View,
    }
}

impl<'a, D: Door> Door for LinkDoor<'a, D> {
    ghost use Rattle.std.specs.Prelude.{◌≡◌, IfErr, IfOk, IfSome};
    ghost use Rattle.guac_handshake.specs.Doors.{IsJoinRefusal};
    ghost use Rattle.guac_handshake.specs.Views.{IsLetIn, Joins, Looks};
    ghost use Rattle.share_links.specs.Doors.{GivesThrough, HasLoansOf, IsJoinedAs, JoinsThrough, inner_of, is_known_at, table_of, told_through};
    ghost use Rattle.share_links.specs.Links.{links_of};

    type Place = D::Place;

    type Pump = D::Pump;

    type Sending = D::Sending;

    type Recording = D::Recording;

    ghost id_of = { λ name. D.id_of name };

    ghost view = { λ d. told_through (D.view d.inner.now) };

    ghost begun = { λ d ask welcome. D.begun d.inner.now ask welcome };

    ghost joined = { λ d role welcome. IsJoinedAs (D.joined d.inner.now) role welcome };

    fn known<R: Wait>(&mut self, rt: &R, name: &str) -> bool
        ensures known { IfSome (D.view (inner_of self.old)).sessions (λ m. result ≡ is_known_at D.id_of m (links_of (table_of self.old)) name.now) }
        ensures looks { Looks (D.view (inner_of self.old)) (D.view (inner_of self.new)) }
        ensures links { table_of self.new ≡ table_of self.old }
        ensures lent { HasLoansOf self.old self.new }
    {
        if self.inner.known(rt, name) {
            return true;
        }
        let Some(link) = id_named(name) else {
            return false;
        };
        let links = &*self.links;
        match links.find(&link) {
            Some(spent) => links.is_usable(&link) && self.inner.known(rt, spent.id),
            None => false,
        }
    }

    fn open<R: Wait>(
        &mut self,
        rt: &R,
        alloc: Global,
        ask: &Ask,
    ) -> Result<Begun<D::Place, D::Pump, D::Sending, D::Recording>, Refused> {
        self.inner.open(rt, alloc, ask)
    }

    fn way(&mut self) -> Way {
        self.inner.way()
    }

    fn note(&mut self) {
        self.inner.note();
    }

    fn undo<R: Wait>(&mut self, rt: &R, id: &Text) {
        self.inner.undo(rt, id);
    }

    fn join<R: Wait>(
        &mut self,
        rt: &R,
        alloc: Global,
        name: &str,
        role: Asked,
    ) -> Result<Welcome<D::Place>, Refused>
        ensures kind { IfErr result IsJoinRefusal }
        ensures joins { Joins (D.id_of name.now) name.now role result (told_through (D.view (inner_of self.old))) (told_through (D.view (inner_of self.new))) }
        ensures welcome { IfOk result (IsLetIn D.Place.fresh D.id_of name.now (IsJoinedAs (D.joined (inner_of self.new)) role)) }
        ensures through { JoinsThrough D.id_of name.now role (links_of (table_of self.old)) (links_of (table_of self.new)) result (D.view (inner_of self.old)) (D.view (inner_of self.new)) }
        ensures lent { HasLoansOf self.old self.new }
    {
        if self.inner.known(rt, name) {
            return self.inner.join(rt, alloc, name, role);
        }
        let Some(link) = id_named(name) else {
            return Err(Refused::Absent);
        };
        if !self.links.is_usable(&link) {
            return Err(Refused::Absent);
        }
        self.links.take_one(&link);
        let links = &*self.links;
        let Some(spent) = links.find(&link) else {
            return Err(Refused::Absent);
        };
        let role = role_through(spent.control, role);
        let refused = match self.inner.join(rt, alloc, spent.id, role) {
            // The name is copied last, so that want of memory for it is told only where nothing else is refused.
            Ok(welcome) => match copied(alloc, name) {
                Ok(told) => return Ok(Welcome {
                    id: told,
                    place: welcome.place,
                    first: welcome.first,
                }),
                Err(refused) => {
                    self.inner.give(rt, spent.id, welcome.place);
                    refused
                }
            },
            Err(refused) => refused,
        };
        self.links.give_back(&link);
        Err(refused)
    }

    fn give<R: Wait>(&mut self, rt: &R, id: &str, place: D::Place)
        ensures gives { GivesThrough D.id_of (links_of (table_of self.old)) id.now (D.view (inner_of self.old)) (D.view (inner_of self.new)) }
        ensures links { table_of self.new ≡ table_of self.old }
        ensures lent { HasLoansOf self.old self.new }
    {
        if self.inner.known(rt, id) {
            return self.inner.give(rt, id, place);
        }
        let links = &*self.links;
        match id_named(id) {
            Some(link) => match links.find(&link) {
                Some(spent) => self.inner.give(rt, spent.id, place),
                None => self.inner.give(rt, id, place),
            },
            None => self.inner.give(rt, id, place),
        }
    }
}
