//! Viewers that leave.

ghost use Rattle.std.specs.Prelude.{◌≡◌, [], Ok, OnErr};
ghost use Rattle.gate_model.specs.session.History.{History};
ghost use Rattle.gate_model.specs.declared.answer.Answer.TheVariants.{Leave as left};
ghost use Rattle.gate_model.specs.declared.event.Event.TheVariants.{Leave};

use crate::desk::Desk;
use gate_model::laws::entries_are_few;
use gate_model::{Entry, NoViewer};

impl Desk {
    ghost use Rattle.desk_core.specs.Desk.{Stands};
    ghost use Rattle.desk_core.specs.Calls.{Ended};

    /// The viewer leaves. Its number is never given again (this project's own rule).
    pub fn leave(&mut self, viewer: u32) -> Result<(), NoViewer>
        ensures step { (h : History) → Stands self.old h → Ended h (Leave viewer) (Ok (left result)) self.old self.new [] [] }
        ensures unchanged { OnErr result (self.new ≡ self.old) }
    {
        if !self.book.is_live(viewer) {
            return Err(NoViewer);
        }
        // So the number of entries doesn't overflow.
        entries_are_few();
        self.log.add(&Entry::Leave { viewer });
        self.book.remove(viewer);
        Ok(())
    }
}
