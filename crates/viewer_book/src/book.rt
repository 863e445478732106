ghost use Rattle.std.specs.Prelude.{◌≡◌, ◌+◌, ◌<◌, ◌≤◌, Some, IsTrue, IfOk, OnErr, OnOk, length, option_map, position};
ghost use Rattle.std.specs.Option.{ForSome};
ghost use Rattle.gate_model.specs.Limits.{most_joined, most_live};
ghost use Rattle.viewer_book.specs.Book.{IsBook, acknowledging, added, changed, ended_at, has_number, holding, is_live, live_count, moved_to, nobody, removed, viewer_at};
ghost use Rattle.viewer_book.specs.Room.{room};

use crate::viewer::Viewer;
use gate_model::limits::MOST_LIVE;
use gate_model::{Mods, NoMemory, Role};
use std::alloc::Global;
use std::marker::Model;

/// The viewers of one session: how many have joined, and what is kept of each that is live, in the
/// order of their numbers. Contracts see a book as a `BookState` (this project's own rule).
#[derive(Drop)]
pub struct Book {
    alloc: Global,
    joined: u32,
    viewers: Vec<Viewer>,
}

impl Model for Book {
    ghost use Rattle.viewer_book.specs.Book.{BookState, IsBook};

    ghost Value = { BookState };

    ghost view = { λ b. record { joined = b.joined; viewers = b.viewers.items } };

    ghost invariant = { λ b. IsBook (record { joined = b.joined; viewers = b.viewers.items }) };
}

impl Book {
    /// A book in which nobody has joined, with room for 64 live viewers. It is refused for want of
    /// memory alone (this project's own).
    pub fn new(alloc: Global) -> Result<Book, NoMemory>
        ensures { IfOk result (λ book. book ≡ nobody) }
    {
        let viewers = Vec::with_capacity(alloc, MOST_LIVE)?;
        Ok(Book {
            alloc,
            joined: 0,
            viewers,
        })
    }

    /// Adds a live viewer and answers its number, one more than have joined before; no number is given
    /// twice. It was given everything up to the stamp, which waits for its acknowledgement but for a
    /// recorder's, wasn't given the closing instruction, and holds no modifier. There are fewer than 64
    /// live viewers, and fewer than 1,000,000 have joined. It takes room for 321 stamps that wait. It is
    /// refused for want of memory alone, and then changes nothing (this project's own rule).
    pub fn add(&mut self, role: Role, stamp: u64) -> Result<u32, NoMemory>
        requires few_live { live_count self.old < most_live }
        requires few_joined { self.old.joined < most_joined }
        ensures number { IfOk result (λ number. number ≡ self.old.joined + 1) }
        ensures added { OnOk result (self.new ≡ added self.old role stamp) }
        ensures unchanged { OnErr result (self.new ≡ self.old) }
    {
        let number = self.joined + 1;
        let viewer = Viewer::newcomer(self.alloc, number, role, stamp)?;
        self.viewers.push(viewer)?;
        self.joined = number;
        Ok(number)
    }

    /// The number of live viewers, at most 64 (this project's own limit).
    pub fn live(&self) -> u32
        ensures counts { result ≡ live_count self.now }
        ensures book { IsBook self.now }
    {
        self.viewers.len() as u32
    }

    /// The number of viewers that have joined, at most 1,000,000. Those who left count (this project's
    /// own limit).
    pub fn joined(&self) -> u32
        ensures counts { result ≡ self.now.joined }
        ensures book { IsBook self.now }
    {
        self.joined
    }

    /// Whether a viewer of this number has joined and not left. Any number may be asked for (this
    /// project's own).
    pub fn is_live(&self, viewer: u32) -> bool
        ensures live { result ≡ is_live self.now viewer }
        ensures book { IsBook self.now }
    {
        place_of(&self.viewers, viewer).is_some()
    }

    /// What a live viewer may do (this project's own rule).
    pub fn role(&self, viewer: u32) -> Role
        requires { IsTrue (is_live self.now viewer) }
        ensures { option_map (λ v. v.role) (viewer_at self.now viewer) ≡ Some result }
    {
        self.viewer(viewer).role
    }

    /// The newest stamp that a live viewer was given (this project's own rule).
    pub fn position(&self, viewer: u32) -> u64
        requires { IsTrue (is_live self.now viewer) }
        ensures { option_map (λ v. v.position) (viewer_at self.now viewer) ≡ Some result }
    {
        self.viewer(viewer).position
    }

    /// How many stamps wait for a live viewer's acknowledgement, at most 321: none for a recorder's (this
    /// project's own rule).
    pub fn waiting(&self, viewer: u32) -> u32
        requires { IsTrue (is_live self.now viewer) }
        ensures { option_map (λ v. length v.waiting) (viewer_at self.now viewer) ≡ Some result }
    {
        self.viewer(viewer).waiting.len() as u32
    }

    /// Whether a live viewer was given the closing instruction (this project's own rule).
    pub fn ended(&self, viewer: u32) -> bool
        requires { IsTrue (is_live self.now viewer) }
        ensures { option_map (λ v. v.ended) (viewer_at self.now viewer) ≡ Some result }
    {
        self.viewer(viewer).ended
    }

    /// The modifiers that a live viewer holds down (this project's own rule).
    pub fn mods(&self, viewer: u32) -> Mods
        requires { IsTrue (is_live self.now viewer) }
        ensures { option_map (λ v. v.mods) (viewer_at self.now viewer) ≡ Some result }
    {
        self.viewer(viewer).mods
    }

    /// A live viewer holds these modifiers, and no other (this project's own rule).
    pub fn set_mods(&mut self, viewer: u32, mods: Mods)
        requires { IsTrue (is_live self.old viewer) }
        ensures { self.new ≡ changed self.old viewer (holding mods) }
    {
        let place = self.place(viewer);
        self.viewers[place].mods = mods;
    }

    /// A live viewer was given everything up to the stamp, which is above its position and waits for its
    /// acknowledgement, but for a recorder's. Fewer than 321 wait. It takes no memory (this project's own
    /// rule).
    pub fn deliver(&mut self, viewer: u32, stamp: u64)
        requires live { IsTrue (is_live self.old viewer) }
        requires rises { ForSome (viewer_at self.old viewer) (λ v. v.position < stamp) }
        requires few { ForSome (viewer_at self.old viewer) (λ v. length v.waiting < room) }
        ensures { self.new ≡ changed self.old viewer (moved_to stamp) }
    {
        let place = self.place(viewer);
        self.viewers[place].give(stamp);
    }

    /// A live viewer acknowledges the stamps up to this one, which wait no more. A stamp above its
    /// position has no effect (this project's own rule).
    pub fn acknowledge(&mut self, viewer: u32, stamp: u64)
        requires { IsTrue (is_live self.old viewer) }
        ensures { self.new ≡ changed self.old viewer (acknowledging stamp) }
    {
        let place = self.place(viewer);
        self.viewers[place].acknowledge(stamp);
    }

    /// A live viewer was given the closing instruction, and everything up to the stamp, which isn't
    /// below its position. No stamp waits more than did (this project's own rule).
    pub fn end(&mut self, viewer: u32, stamp: u64)
        requires live { IsTrue (is_live self.old viewer) }
        requires rises { ForSome (viewer_at self.old viewer) (λ v. v.position ≤ stamp) }
        ensures { self.new ≡ changed self.old viewer (ended_at stamp) }
    {
        let place = self.place(viewer);
        let entry = &mut self.viewers[place];
        entry.position = stamp;
        entry.ended = true;
    }

    /// A live viewer leaves. It still counts among those who have joined (this project's own rule).
    pub fn remove(&mut self, viewer: u32)
        requires { IsTrue (is_live self.old viewer) }
        ensures { self.new ≡ removed self.old viewer }
    {
        self.viewers.retain(|entry| entry.number != viewer);
    }

    // What is kept of a live viewer.
    fn viewer(&self, number: u32) -> &Viewer
        requires { IsTrue (is_live self.now number) }
        ensures { viewer_at self.now number ≡ Some result.now }
    {
        &self.viewers[self.place(number)]
    }

    // The place of a live viewer.
    fn place(&self, number: u32) -> usize
        requires { IsTrue (is_live self.now number) }
        ensures { position (has_number number) self.now.viewers ≡ Some result }
    {
        place_of(&self.viewers, number).unwrap()
    }
}

// The place of the viewer of this number, if it is there.
fn place_of(viewers: &[Viewer], number: u32) -> Option<usize>
    ensures { result ≡ position (has_number number) viewers.now }
{
    viewers.iter().position(|viewer| viewer.number == number)
}
