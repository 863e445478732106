//! The desk itself, and what it tells of its history.

ghost use Rattle.std.specs.Prelude.{◌≡◌, ◌-◌, length, IsTrue, Some};
ghost use Rattle.gate_model.specs.session.History.{History, newest, newest_frame};
ghost use Rattle.gate_model.specs.session.Output.{out, taken};
ghost use Rattle.gate_model.specs.session.Rights.{role_in};
ghost use Rattle.viewer_book.specs.Book.{is_live};
ghost use Rattle.gate_model.specs.text.Text.{texts};

mod close;
mod feed;
mod join;
mod leave;
mod read;
mod resize;
mod run;
mod start;
mod take;
mod update;
mod write;

use crate::drawing::Drawing;
use crate::frames::Frames;
use crate::host::Host;
use crate::log::Log;
use crate::outgoing::Outgoing;
use gate_model::{Cause, Role, Setup};
use std::marker::Model;
use viewer_book::Book;

/// One session: what it was opened with, what its Telnet host has sent, the bytes that wait for the host, the
/// frames that are kept, what the next one is drawn over, its live viewers, and why it was closed.
/// Contracts see what it keeps, a `DeskState`, and say by `Stands` for which histories it may stand
/// (this project's own rule).
#[derive(Drop)]
pub struct Desk {
    setup: Setup,
    host: Host,
    outgoing: Outgoing,
    frames: Frames,
    drawing: Drawing,
    book: Book,
    log: Log,
    cause: Option<Cause>,
}

impl Model for Desk {
    ghost use Rattle.desk_core.specs.Desk.{DeskState};
    ghost use Rattle.desk_core.specs.State.{state, StandsFor};

    ghost Value = { DeskState };

    ghost view = { state };

    ghost invariant = { StandsFor };
}

impl Desk {
    ghost use Rattle.desk_core.specs.Desk.{IsKept, Stands};

    /// The number of entries of the session. A desk stands for some history.
    pub fn entries(&self) -> u64
        ensures counts { (h : History) → Stands self.now h → result ≡ length h }
        ensures stands { IsKept self.now }
    {
        self.log.entries()
    }

    /// The newest stamp.
    pub fn stamp(&self) -> u64
        ensures { (h : History) → Stands self.now h → result ≡ newest h }
    {
        self.frames.stamp()
    }

    /// What a live viewer may do: the role that its join gave it.
    pub fn role(&self, viewer: u32) -> Role
        requires { IsTrue (is_live self.now.book viewer) }
        ensures { (h : History) → Stands self.now h → role_in h viewer ≡ Some result }
    {
        self.book.role(viewer)
    }

    /// How many bytes wait for the Telnet host.
    pub fn pending(&self) -> u64
        ensures counts { (h : History) → Stands self.now h → result ≡ length (out h) - taken h }
    {
        self.outgoing.len() as u64
    }

    /// The text of the newest frame.
    pub fn newest_frame(&self) -> &[u8]
        ensures { (h : History) → Stands self.now h → result.now ≡ texts (newest_frame h) }
    {
        self.frames.newest()
    }
}
