//! How viewers are brought up to date: by the frames that they lack, or by a picture of the whole screen.

ghost use Rattle.std.specs.Prelude.{◌≡◌, ◌++◌, ℕ, false, IfOk, IsTrue, OnErr};
ghost use Rattle.gate_model.specs.session.Delivered.{closing, handed, position};
ghost use Rattle.gate_model.specs.session.History.{History};
ghost use Rattle.gate_model.specs.text.Text.{texts};
ghost use Rattle.display_history.specs.Keeping.{covers};
ghost use Rattle.viewer_book.specs.Book.{is_live};

use crate::desk::Desk;
use crate::giving::{give_frames, give_list};
use display_history::laws::{covers_history, texts_are_kept};
use gate_model::laws::given::pictures_restore;
use gate_model::{How, Instrs, NoMemory, ReadAnswer};

/// How a viewer was brought up to date, and what its read answers.
#[derive(Drop)]
pub(crate) struct Update {
    pub(crate) how: How,
    pub(crate) answer: ReadAnswer,
}

impl Desk {
    ghost use Rattle.desk_core.specs.Desk.{Stands};
    ghost use Rattle.desk_core.specs.Parts.{Brings, Pictures};
    ghost use Rattle.desk_core.specs.declared.desk.update.Update.{Update};

    // Appends what the viewer lacks, and the closing instruction of a closed session.
    pub(crate) fn update(&self, viewer: u32, into: &mut Vec<u8>) -> Result<Update, NoMemory>
        requires { IsTrue (is_live self.now.book viewer) }
        ensures brings { (h : History) → Stands self.now h → IfOk result (Brings h viewer) }
        ensures appended { (h : History) → Stands self.now h → IfOk result (λ u. into.new.items ≡ into.old.items ++ texts (handed h (position h viewer) u.how ++ closing h)) }
        ensures buffer { OnErr result (into.new.items ≡ into.old.items) }
    {
        let reached = self.book.position(viewer);
        if self.frames.covers(reached) {
            self.update_by_frames(reached, into)
        } else {
            self.update_by_picture(reached, into)
        }
    }

    // Appends the text of each frame above the stamp that the viewer has reached.
    fn update_by_frames(&self, reached: u64, into: &mut Vec<u8>) -> Result<Update, NoMemory>
        requires { IsTrue (covers self.now.frames.kept reached) }
        ensures brings { (h : History) (v : ℕ) → Stands self.now h → reached ≡ position h v → IfOk result (Brings h v) }
        ensures appended { (h : History) (v : ℕ) → Stands self.now h → reached ≡ position h v → IfOk result (λ u. into.new.items ≡ into.old.items ++ texts (handed h (position h v) u.how ++ closing h)) }
        ensures buffer { OnErr result (into.new.items ≡ into.old.items) }
    {
        texts_are_kept();
        covers_history();
        let frames = self.frames.after(reached);
        give_frames(frames, self.cause, into)?;
        let answer = ReadAnswer::Frames {
            count: frames.len() as u32,
            stamp: self.frames.stamp(),
            closed: self.cause.is_some(),
        };
        let how = How::Suffix;
        Ok(Update { how, answer })
    }

    // Appends the text of a picture, which takes the place of all frames above that stamp.
    fn update_by_picture(&self, reached: u64, into: &mut Vec<u8>) -> Result<Update, NoMemory>
        requires { covers self.now.frames.kept reached ≡ false }
        ensures brings { (h : History) (v : ℕ) → Stands self.now h → reached ≡ position h v → IfOk result (Brings h v) }
        ensures appended { (h : History) (v : ℕ) → Stands self.now h → reached ≡ position h v → IfOk result (λ u. into.new.items ≡ into.old.items ++ texts (handed h (position h v) u.how ++ closing h)) }
        ensures buffer { OnErr result (into.new.items ≡ into.old.items) }
    {
        covers_history();
        let list = self.picture()?;
        give_list(list.as_slice(), self.cause, into)?;
        let answer = ReadAnswer::Fresh {
            stamp: self.frames.stamp(),
            closed: self.cause.is_some(),
        };
        let how = How::Fresh(list);
        Ok(Update { how, answer })
    }

    // A picture of the newest screen with every glyph buffer.
    pub(crate) fn picture(&self) -> Result<Instrs, NoMemory>
        ensures { (h : History) → Stands self.now h → IfOk result (Pictures h) }
    {
        pictures_restore();
        self.drawing.picture(self.frames.stamp())
    }
}
