//! The end of a session.

ghost use Rattle.std.specs.Prelude.{◌≡◌, [], Ok, OnErr};
ghost use Rattle.gate_model.specs.session.History.{History};
ghost use Rattle.gate_model.specs.declared.answer.Answer.TheVariants.{Close as closed};
ghost use Rattle.gate_model.specs.declared.event.Event.TheVariants.{Close};

use crate::desk::Desk;
use gate_model::laws::entries_are_few;
use gate_model::{Cause, Closed, Entry};

impl Desk {
    ghost use Rattle.desk_core.specs.Desk.{Stands};
    ghost use Rattle.desk_core.specs.Calls.{Ended};

    /// Closes the session for this cause. Viewers that are there may still read what they lack, and the
    /// closing instruction; a session that was closed before keeps its cause (this project's own rule).
    pub fn close(&mut self, cause: Cause) -> Result<(), Closed>
        ensures step { (h : History) → Stands self.old h → Ended h (Close cause) (Ok (closed result)) self.old self.new [] [] }
        ensures unchanged { OnErr result (self.new ≡ self.old) }
    {
        if let Some(cause) = self.cause {
            return Err(Closed { cause });
        }
        // So the number of entries doesn't overflow.
        entries_are_few();
        self.log.add(&Entry::Close { cause });
        self.cause = Some(cause);
        Ok(())
    }
}
