//! A desk as the lock keeps it.

use desk_core::Desk;
use gate_model::Entry;
use turn_lock::Kept;

/// A desk under its lock. It stands for the histories for which the desk stands, which are few enough to be
/// counted; an entry's mark is that of the pass which may add it.
pub struct Held {
    pub(crate) desk: Desk,
}

// Not derived, so that the crates above prove a call where a pass is dropped, and not the desk's parts anew.
impl Drop for Held {
    fn drop(self) {
        let Held { desk: _ } = self;
    }
}

impl Held {
    ghost use Rattle.std.specs.Prelude.{◌≡◌};

    pub(crate) fn into_desk(self) -> Desk
        ensures { result ≡ self.desk }
    {
        let Held { desk } = self;
        desk
    }
}

impl Kept for Held {
    ghost use Rattle.desk_core.specs.Desk.{Stands};
    ghost use Rattle.shared_desk.specs.Marks.{mark_of};
    ghost use Rattle.std.specs.Prelude.{◌<◌, ◌^◌, length};

    type Entry = Entry;

    ghost stands = { λ w h. Stands w.desk h × (length h < 2 ^ 62) };

    ghost mark = { mark_of };

    fn count(&self) -> u64 {
        self.desk.entries()
    }

    ghost few = { λ w h s. s.1 };
}
