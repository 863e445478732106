//! A session, the links to it, and who has joined.

use anyhow::{Context, Result};
use gate_model::limits::MOST_ENTRIES;
use gate_model::{Asked, Role, Share};
use gate_outside::MemDice;
use guac_handshake::{Door, Welcome, id_named, status_of};
use http::Method;
use http_front::Request;
use share_links::{LinkTable, Linked, link_request};
use shared_desk::Place;
use std::alloc::Global;
use std::sync::{Mutex, Wait};
use try_doors::{NAME, OneDoor, Session};
use try_words::push_escaped;

// The bytes 20 to 2f, which every draw gives, and the name of the link that is made of them.
const DRAW: [u8; 16] = [
    0x20, 0x21, 0x22, 0x23, 0x24, 0x25, 0x26, 0x27, 0x28, 0x29, 0x2a, 0x2b, 0x2c, 0x2d, 0x2e, 0x2f,
];

const LINK: &str = "$20212223-2425-4627-a829-2a2b2c2d2e2f";

/// A door with links to one session, and those who have joined it, in turn.
#[derive(Drop)]
pub struct Hall<'a> {
    door: Linked<'a, OneDoor>,
    dice: MemDice,
    joined: Vec<Welcome<Place>>,
}

impl<'a> Hall<'a> {
    /// A session of this share mode, over a table of links.
    pub fn new(alloc: Global, mode: Share, links: &'a Mutex<LinkTable>) -> Result<Hall<'a>> {
        let session = Session::new(alloc, mode, MOST_ENTRIES)?;
        Ok(Hall {
            door: Linked {
                door: OneDoor::with(NAME, session),
                links,
            },
            dice: MemDice::new([DRAW].to_vec(alloc)?),
            joined: Vec::new(alloc),
        })
    }

    /// The host says a letter.
    pub fn say<R: Wait>(&mut self, rt: &R, alloc: Global) -> Result<()> {
        self.door.door.session()?.say(rt, alloc, b'A')
    }

    /// The session leaves the table of sessions.
    pub fn forget(&mut self) {
        drop(self.door.door.forget());
    }

    /// Whether the link's name is known.
    pub fn known<R: Wait>(&mut self, rt: &R, text: &mut String) -> Result<()> {
        let known = self.door.known(rt, LINK);
        text.push_str(if known { "known" } else { "unknown" })?;
        Ok(())
    }

    /// A viewer joins, by the link or by the session's name.
    pub fn join<R: Wait>(
        &mut self,
        rt: &R,
        alloc: Global,
        by_link: bool,
        role: Asked,
        text: &mut String,
    ) -> Result<()> {
        let name = if by_link { LINK } else { NAME };
        match self.door.join(rt, alloc, name, role) {
            Ok(welcome) => {
                let role = word_of(welcome.place.role);
                write!(text, "{role} {}", welcome.id.as_str())?;
                self.joined.push(welcome)?;
            }
            Err(refused) => write!(text, "refused {}", status_of(refused))?,
        }
        Ok(())
    }

    /// The viewer that joined last goes, and its place goes back; tells how many went back under the session's name.
    pub fn leave<R: Wait>(&mut self, rt: &R, text: &mut String) -> Result<()> {
        let Welcome { id, place, .. } = self.joined.pop().context("nobody has joined")?;
        self.door.give(rt, id.as_str(), place);
        write!(text, "{} back", self.door.door.given())?;
        Ok(())
    }

    /// Whether the viewer that joined first is given something.
    pub fn read<R: Wait>(&mut self, rt: &R, alloc: Global, text: &mut String) -> Result<()> {
        let first = self.joined.get_mut(0).context("nobody has joined")?;
        let mut frames = Vec::new(alloc);
        let _ = first.place.reader.read(rt, &mut frames);
        text.push_str(if frames.is_empty() {
            "nothing"
        } else {
            "frames"
        })?;
        Ok(())
    }

    /// Answers a request: `STATUS CODE [BODY]`.
    pub fn ask<R: Wait>(
        &mut self,
        rt: &R,
        alloc: Global,
        method: &str,
        target: &str,
        body: &[u8],
        text: &mut String,
    ) -> Result<()> {
        let method = Method::from_bytes(alloc, method.as_bytes())
            .ok()
            .context("no method")?;
        let request = Request {
            method,
            target,
            body,
        };
        let mut links = self.door.links.lock(rt);
        let door = &mut self.door.door;
        let response = link_request(rt, alloc, &mut links, &request, door, &mut self.dice);
        write!(text, "{} {} [", response.status, response.code)?;
        push_escaped(text, response.body.as_slice())?;
        text.push(']')?;
        Ok(())
    }

    /// Spends a use of the link, and tells where it leads.
    pub fn spend<R: Wait>(&mut self, rt: &R, text: &mut String) -> Result<()> {
        let link = id_named(LINK).context("no link")?;
        match self.door.links.lock(rt).spend(&link) {
            Some(spent) => write!(text, "{} {}", spent.id, spent.control)?,
            None => text.push_str("none")?,
        }
        Ok(())
    }
}

fn word_of(role: Role) -> &'static str {
    match role {
        Role::Control => "control",
        Role::View => "view",
        Role::Keep => "keep",
    }
}
