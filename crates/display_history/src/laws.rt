//! The laws about what is kept: each function's contract is a law.

ghost use Rattle.display_history.specs.Laws.{CoversHistory, KeptAreFew, NewestIsKept, NewestIsLast, TextsAreKept, TextsGoAfter};

use gate_model::laws::frames::{covers_by_stamp, kept_are_last};

/// Which frames are kept, and which come after a stamp, is the same for a session's frames and for their
/// texts (this project's own).
pub fn texts_are_kept()
    ensures kept { TextsAreKept }
    ensures after { TextsGoAfter }
{}

/// The newest stamp is that of the last frame that was pushed, kept or not (this project's own).
pub fn newest_is_last()
    ensures { NewestIsLast }
{}

/// The newest frame is the last that is kept, or, where it has more text than is kept, nothing is (this project's
/// own).
pub fn newest_is_kept()
    ensures { NewestIsKept }
{}

/// At most 256 frames with at most 8,388,608 bytes of text are kept (this project's own).
pub fn kept_are_few()
    ensures { KeptAreFew }
{}

/// For a history whose frames have these texts, `covers` tells whether every frame above a stamp is kept
/// (this project's own).
pub fn covers_history()
    ensures { CoversHistory }
{
    covers_by_stamp();
    kept_are_last();
}
