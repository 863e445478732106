//! Viewers that join.

ghost use Rattle.std.specs.Prelude.{◌≡◌, ◌+◌, ◌<◌, ◌≤◌, ◌++◌, ◌^◌, ℕ, List, Err, IfOk, OnErr, OnOk};
ghost use Rattle.gate_model.specs.session.History.{History};
ghost use Rattle.gate_model.specs.Limits.{most_joined, most_live};
ghost use Rattle.gate_model.specs.declared.event.Event.TheVariants.{Join};
ghost use Rattle.gate_model.specs.text.Text.{texts};
ghost use Rattle.viewer_book.specs.Book.{added, live_count};

use crate::desk::Desk;
use gate_model::limits::{MOST_JOINED, MOST_LIVE};
use gate_model::{Asked, Entry, Instrs, JoinRefusal, Joined, NoMemory, Role};
use guac_instr::texts_of;
use share_policy::grant;
use viewer_book::Book;

impl Desk {
    ghost use Rattle.desk_core.specs.Desk.{Stands};
    ghost use Rattle.desk_core.specs.Calls.{Ended, join_answer};
    ghost use Rattle.desk_core.specs.Parts.{Admits};

    /// Adds a viewer with the next number and the role that the session's share mode grants, and appends
    /// a picture of the newest screen with every glyph buffer. What it costs depends on the screen and
    /// the buffers alone (this project's own rule).
    pub fn join(&mut self, asked: Asked, into: &mut Vec<u8>) -> Result<Joined, JoinRefusal>
        ensures step { (h : History) → Stands self.old h → Ended h (Join asked) (join_answer result) self.old self.new into.old.items into.new.items }
        ensures unchanged { OnErr result (self.new ≡ self.old) }
        ensures counts { OnOk result (self.new.entries ≡ self.old.entries + 1) }
        ensures few { OnOk result (self.new.entries ≤ 2 ^ 40) }
        ensures buffer { OnErr result (into.new.items ≡ into.old.items) }
    {
        let role = self.admitted(asked)?;
        let stamp = self.frames.stamp();
        let first = self.picture()?;
        let viewer = seat(role, stamp, &first, &mut self.book, into)?;
        self.log.add(&Entry::Join {
            viewer,
            role,
            first,
        });
        Ok(Joined {
            viewer,
            role,
            stamp,
        })
    }

    /// Why `join` refuses a viewer for which memory is wanting: for that alone where nothing else does. It changes
    /// nothing, and needs no memory.
    pub fn refuse(&self, asked: Asked) -> JoinRefusal
        ensures { (h : History) (text : List ℕ) → Stands self.now h → Ended h (Join asked) (join_answer (Err result)) self.now self.now text text }
    {
        match self.admitted(asked) {
            Ok(_) => JoinRefusal::NoMemory,
            Err(refusal) => refusal,
        }
    }

    // The role that a viewer gets, or why it is refused.
    fn admitted(&self, asked: Asked) -> Result<Role, JoinRefusal>
        ensures { (h : History) → Stands self.now h → Admits h asked result }
    {
        if let Some(cause) = self.cause {
            return Err(JoinRefusal::Closed(cause));
        }
        let Ok(role) = grant(self.setup.mode, asked) else {
            return Err(JoinRefusal::Forbidden);
        };
        let (live, joined) = (self.book.live(), self.book.joined());
        if live as usize >= MOST_LIVE || joined >= MOST_JOINED {
            return Err(JoinRefusal::TooMany { live, joined });
        }
        if self.log.is_full(self.setup.entries) {
            let entries = self.log.entries();
            return Err(JoinRefusal::Worn { entries });
        }
        Ok(role)
    }
}

// Adds a viewer that was given this list, up to the stamp, and appends its text: both, or for want of
// memory neither.
fn seat(
    role: Role,
    stamp: u64,
    first: &Instrs,
    book: &mut Book,
    into: &mut Vec<u8>,
) -> Result<u32, NoMemory>
    requires few_live { live_count book.old < most_live }
    requires few_joined { book.old.joined < most_joined }
    ensures number { IfOk result (λ number. number ≡ book.old.joined + 1) }
    ensures added { OnOk result (book.new ≡ added book.old role stamp) }
    ensures appended { OnOk result (into.new.items ≡ into.old.items ++ texts first.now) }
    ensures unchanged { OnErr result (book.new ≡ book.old) }
    ensures buffer { OnErr result (into.new.items ≡ into.old.items) }
{
    let before = into.len();
    texts_of(first.as_slice(), into)?;
    let number = book.add(role, stamp);
    if number.is_err() {
        into.truncate(before);
    }
    number
}
