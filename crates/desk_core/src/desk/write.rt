//! What viewers ask for.

ghost use Rattle.std.specs.Prelude.{◌≡◌, ◌+◌, ◌≤◌, ◌^◌, [], count_by, false, if◌then◌else◌, length, IfOk, IsTrue, OnErr, OnOk};
ghost use Rattle.gate_model.specs.session.Calls.{is_key_act};
ghost use Rattle.gate_model.specs.session.History.{History, is_closed};
ghost use Rattle.gate_model.specs.session.Refusals.{write_refusal};
ghost use Rattle.gate_model.specs.session.Rights.{may};
ghost use Rattle.gate_model.specs.declared.event.Event.TheVariants.{Write};
ghost use Rattle.viewer_book.specs.Book.{changed, is_live};
ghost use Rattle.desk_core.specs.Viewers.{heeding, noted};

use crate::desk::Desk;
use crate::typing::{Typed, typed_by, types};
use gate_model::{Act, Mods, NoMemory, WriteRefusal, Written};
use std::alloc::Global;
use viewer_book::Book;

impl Desk {
    ghost use Rattle.gate_model.specs.session.Calls.{IsWrite};
    ghost use Rattle.desk_core.specs.Desk.{Stands};
    ghost use Rattle.desk_core.specs.Calls.{Ended, write_answer};
    ghost use Rattle.desk_core.specs.Parts.{Types};

    /// Takes at most 4,096 acts of a viewer, and lets wait for the Telnet host what the presses among
    /// them send, if the viewer may type. A sync among them acknowledges the stamps up to its own, where
    /// the viewer was given that or a later one. It answers how many keys count and how many are denied
    /// (this project's own rule).
    pub fn write(
        &mut self,
        alloc: Global,
        viewer: u32,
        acts: &[Act],
    ) -> Result<Written, WriteRefusal>
        requires { IsWrite acts.now }
        ensures step { (h : History) → Stands self.old h → Ended h (Write viewer acts.now) (write_answer result) self.old self.new [] [] }
        ensures unchanged { OnErr result (self.new ≡ self.old) }
        ensures counts { OnOk result (self.new.entries ≡ self.old.entries + 1) }
        ensures few { OnOk result (self.new.entries ≤ 2 ^ 40) }
    {
        if let Some(refusal) = self.write_refusal(viewer) {
            return Err(refusal);
        }
        let may_type = self.may_type(viewer);
        let typed = self.typed(alloc, viewer, acts, may_type)?;
        self.outgoing.append(&typed.bytes)?;
        self.log.write(viewer, acts);
        note(&mut self.book, viewer, typed.held, acts);
        Ok(counted(may_type, keys_among(acts)))
    }

    // Why a write is refused, if it is.
    fn write_refusal(&self, viewer: u32) -> Option<WriteRefusal>
        ensures { (h : History) → Stands self.now h → result ≡ write_refusal h viewer }
    {
        if !self.book.is_live(viewer) {
            return Some(WriteRefusal::NoViewer);
        }
        if let Some(cause) = self.cause {
            return Some(WriteRefusal::Closed(cause));
        }
        if self.log.is_full(self.setup.entries) {
            let entries = self.log.entries();
            return Some(WriteRefusal::Worn { entries });
        }
        None
    }

    // Whether the viewer may type in an open session.
    fn may_type(&self, viewer: u32) -> bool
        requires { IsTrue (is_live self.now.book viewer) }
        ensures { (h : History) → Stands self.now h → is_closed h ≡ false → result ≡ may h viewer }
    {
        types(self.book.role(viewer))
    }

    // What the viewer's acts send, if it may type.
    fn typed(
        &self,
        alloc: Global,
        viewer: u32,
        acts: &[Act],
        may_type: bool,
    ) -> Result<Typed, NoMemory>
        requires { IsTrue (is_live self.now.book viewer) }
        ensures { (h : History) → Stands self.now h → may_type ≡ may h viewer → IfOk result (Types h viewer acts.now) }
    {
        let held = self.book.mods(viewer);
        let cursor_mode = self.host.screen.cursor_mode();
        typed_by(alloc, acts, may_type, held, cursor_mode)
    }
}

// A live viewer holds these modifiers after these acts, and has acknowledged what they do.
fn note(book: &mut Book, viewer: u32, held: Mods, acts: &[Act])
    requires { IsTrue (is_live book.old viewer) }
    ensures { book.new ≡ changed book.old viewer (noted held acts.now) }
{
    book.set_mods(viewer, held);
    for act in acts {
        heed(book, viewer, act);
    }
}

// A live viewer acknowledges what it does by this act.
fn heed(book: &mut Book, viewer: u32, act: &Act)
    requires { IsTrue (is_live book.old viewer) }
    ensures { book.new ≡ changed book.old viewer (heeding act.now) }
{
    if let Act::Sync { stamp } = *act {
        book.acknowledge(viewer, stamp);
    }
}

// Keys of a viewer that may type count, and those of another are denied.
fn counted(may_type: bool, keys: u32) -> Written
    ensures keys { result.keys ≡ (if may_type then keys else 0) }
    ensures denied { result.denied ≡ (if may_type then 0 else keys) }
{
    if may_type {
        Written { keys, denied: 0 }
    } else {
        Written {
            keys: 0,
            denied: keys,
        }
    }
}

// How many of the acts are keys.
fn keys_among(acts: &[Act]) -> u32
    requires { length acts.now ≤ 4096 }
    ensures { result ≡ count_by is_key_act acts.now }
{
    acts.iter()
        .filter(|act| matches!(act, Act::Key { .. }))
        .count() as u32
}
