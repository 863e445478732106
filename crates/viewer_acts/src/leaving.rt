//! A viewer leaves its session.

ghost use Rattle.shared_desk.specs.Members.{Stays};
ghost use Rattle.viewer_acts.specs.Leaving.{LeftNow};

use gate_outside::{Bell, ring_after_leave};
use shared_desk::WriterPass;
use std::sync::Wait;

/// The pass's viewer leaves where it is there, and then it rings; the viewer has left then (this project's own).
pub fn leave<R: Wait, B: Bell>(rt: &R, pass: &mut WriterPass, bell: &B)
    ensures stays { Stays pass.old pass.new }
    ensures left { LeftNow pass.old.viewer pass.old.view pass.new.view }
{
    // So its Leave stands in what the pass has seen.
    pass.history_is_sound();
    if pass.leave(rt).is_ok() {
        ring_after_leave(bell, pass.spots(), pass.viewer());
    }
}
