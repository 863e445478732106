//! What follows of a visit, for its viewer.

ghost use Rattle.user_serve.specs.Laws.{VisitsShowTheScreen};

use gate_model::laws::given::histories_are_whole;

/// What was written for a viewer that was let in is a front of the text of all that it was given, and that draws
/// exactly the screen at each sync in it (this project's own).
pub fn visits_show_the_screen()
    ensures { VisitsShowTheScreen }
{
    histories_are_whole();
}
