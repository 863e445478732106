//! What is taken for the Telnet host.

ghost use Rattle.std.specs.Prelude.{◌≡◌, ◌≤◌, [], drop, length, take, Ok};
ghost use Rattle.gate_model.specs.session.History.{History};
ghost use Rattle.gate_model.specs.declared.answer.Answer.TheVariants.{Take as taken};
ghost use Rattle.gate_model.specs.declared.event.Event.TheVariants.{Take};

use crate::desk::Desk;
use gate_model::laws::entries_are_few;
use gate_model::{Entry, Taken};

impl Desk {
    ghost use Rattle.desk_core.specs.Desk.{Stands};
    ghost use Rattle.desk_core.specs.Calls.{Ended};

    /// Moves the next bytes that wait for the Telnet host to the front of the buffer, as many as there
    /// is room for, and answers their number. Where there are none nothing changes, and no entry is
    /// added (this project's own rule).
    pub fn take(&mut self, into: &mut [u8]) -> Taken
        ensures step { (h : History) → Stands self.old h → Ended h (Take (length into.old)) (Ok (taken (take result.count into.new) result.closed)) self.old self.new [] [] }
        ensures within { result.count ≤ length into.old }
        ensures rest { drop result.count into.new ≡ drop result.count into.old }
    {
        let closed = self.cause.is_some();
        let count = self.outgoing.take(into);
        if count == 0 {
            return Taken { count, closed };
        }
        // So the number of entries doesn't overflow.
        entries_are_few();
        self.log.add(&Entry::Take {
            count: count as u64,
        });
        Taken { count, closed }
    }
}
