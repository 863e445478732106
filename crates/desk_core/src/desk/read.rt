//! What viewers are given.

ghost use Rattle.std.specs.Prelude.{◌≡◌, ◌+◌, ◌≤◌, ℕ, List, length, IsTrue};
ghost use Rattle.std.specs.Option.{ForSome};
ghost use Rattle.display_history.specs.Keeping.{AreRising, HasKept};
ghost use Rattle.gate_model.specs.session.History.{History};
ghost use Rattle.gate_model.specs.session.Refusals.{read_stop};
ghost use Rattle.gate_model.specs.declared.event.Event.TheVariants.{Read};
ghost use Rattle.viewer_book.specs.Book.{changed, is_live, viewer_at};
ghost use Rattle.viewer_book.specs.Room.{room};
ghost use Rattle.desk_core.specs.Viewers.{IsBehind, brought, given_all};

use crate::desk::Desk;
use crate::desk::update::Update;
use crate::frames::Frames;
use display_history::Kept;
use display_history::laws::covers_history;
use gate_model::laws::entries_are_few;
use gate_model::limits::MOST_WAITING;
use gate_model::{Entry, How, ReadAnswer, ReadRefusal};
use viewer_book::Book;

impl Desk {
    ghost use Rattle.desk_core.specs.Desk.{Stands};
    ghost use Rattle.desk_core.specs.Calls.{Ended, OnGiven, OnNothing, read_answer};

    /// Appends the text of each frame that the viewer lacks, where all of them are kept, and answers
    /// their number and the newest stamp; where not all are kept, it appends a picture of the newest
    /// screen with every glyph buffer, for the layers that the viewer has. Where the viewer lacks none it
    /// answers `Empty`, and where more than 64 stamps wait for its acknowledgement, `Hold`; no stamp waits
    /// for a recorder's. In a closed session it answers neither: it then appends the closing instruction,
    /// and answers `Ended` from the next read on (this project's own rule).
    pub fn read(&mut self, viewer: u32, into: &mut Vec<u8>) -> Result<ReadAnswer, ReadRefusal>
        ensures step { (h : History) → Stands self.old h → Ended h (Read viewer) (read_answer result) self.old self.new into.old.items into.new.items }
        ensures unchanged { OnNothing result (self.new ≡ self.old) }
        ensures counts { OnGiven result (self.new.entries ≡ self.old.entries + 1) }
        ensures buffer { OnNothing result (into.new.items ≡ into.old.items) }
    {
        if let Some(stop) = self.read_stop(viewer) {
            return stop;
        }
        let update = self.update(viewer, into)?;
        let Update { how, answer } = update;
        // So what the viewer lacks is kept, where frames bring it up to date.
        covers_history();
        let closed = self.cause.is_some();
        bring(&mut self.book, viewer, &self.frames, &how, closed);
        // So the number of entries doesn't overflow.
        entries_are_few();
        self.log.add(&Entry::Read { viewer, how });
        Ok(answer)
    }

    // Why a read gives the viewer nothing, if it does.
    fn read_stop(&self, viewer: u32) -> Option<Result<ReadAnswer, ReadRefusal>>
        ensures { (h : History) → Stands self.now h → result ≡ read_stop h viewer }
    {
        if !self.book.is_live(viewer) {
            return Some(Err(ReadRefusal::NoViewer));
        }
        if self.book.ended(viewer) {
            return Some(Ok(ReadAnswer::Ended));
        }
        if self.cause.is_some() {
            return None;
        }
        if self.book.position(viewer) == self.frames.stamp() {
            return Some(Ok(ReadAnswer::Empty));
        }
        let waiting = self.book.waiting(viewer);
        if waiting as usize > MOST_WAITING {
            return Some(Ok(ReadAnswer::Hold { waiting }));
        }
        if self.log.is_full(self.setup.entries) {
            let entries = self.log.entries();
            return Some(Err(ReadRefusal::Worn { entries }));
        }
        None
    }
}

// A live viewer was brought up to date: in an open session stamp by stamp, which wait for its
// acknowledgement, and in a closed one at once, with the closing instruction.
fn bring(book: &mut Book, viewer: u32, frames: &Frames, how: &How, closed: bool)
    requires live { IsTrue (is_live book.old viewer) }
    requires behind { ForSome (viewer_at book.old viewer) (IsBehind frames.now how.now closed) }
    ensures { (all : List (ℕ × List ℕ)) (p : ℕ) → HasKept frames.now.kept all → ForSome (viewer_at book.old viewer) (λ v. v.position ≡ p) → book.new ≡ changed book.old viewer (brought all p frames.now.stamp how.now closed) }
{
    let stamp = frames.stamp();
    if closed {
        book.end(viewer, stamp);
        return;
    }
    match how {
        How::Suffix => give_all(book, viewer, frames.after(book.position(viewer))),
        How::Fresh(_) => book.deliver(viewer, stamp),
    }
}

// A live viewer was given these frames, one after the other.
fn give_all(book: &mut Book, viewer: u32, frames: &[Kept])
    requires live { IsTrue (is_live book.old viewer) }
    requires rises { ForSome (viewer_at book.old viewer) (λ v. AreRising v.position frames.now) }
    requires few { ForSome (viewer_at book.old viewer) (λ v. length v.waiting + length frames.now ≤ room) }
    ensures { book.new ≡ changed book.old viewer (given_all frames.now) }
{
    for frame in frames {
        book.deliver(viewer, frame.stamp());
    }
}
