ghost use Rattle.std.specs.Prelude.{◌≡◌, ◌<◌, Some, IfOk, length};
ghost use Rattle.gate_model.specs.session.Waiting.{is_keep};
ghost use Rattle.viewer_book.specs.Book.{acknowledging, moved_to, newcomer};
ghost use Rattle.viewer_book.specs.Room.{room};

use crate::waiting::Waiting;
use gate_model::{Mods, NoMemory, Role};
use std::alloc::Global;

/// What the book keeps of a live viewer: its number, from 1 to 1,000,000, its role, the newest stamp
/// that it was given, the stamps that wait for its acknowledgement, whether it was given the closing
/// instruction, and the modifiers that it holds.
#[derive(Drop)]
pub(crate) struct Viewer {
    pub(crate) number: u32,
    pub(crate) role: Role,
    pub(crate) position: u64,
    pub(crate) waiting: Waiting,
    pub(crate) ended: bool,
    pub(crate) mods: Mods,
}

impl Viewer {
    /// A viewer that joins: it was given everything up to the stamp, and holds no modifier. It is refused
    /// for want of memory alone.
    pub(crate) fn newcomer(
        alloc: Global,
        number: u32,
        role: Role,
        stamp: u64,
    ) -> Result<Viewer, NoMemory>
        ensures { IfOk result (λ v. v ≡ newcomer number role stamp) }
    {
        let waiting = Waiting::none(alloc)?;
        let mut viewer = Viewer {
            number,
            role,
            position: 0,
            waiting,
            ended: false,
            mods: Mods {
                control_left: false,
                control_right: false,
                alt_left: false,
                alt_right: false,
            },
        };
        viewer.give(stamp);
        Ok(viewer)
    }

    /// It was given everything up to the stamp, which waits, but for a recorder's. Fewer than 321 wait.
    pub(crate) fn give(&mut self, stamp: u64)
        requires { length self.old.waiting < room }
        ensures { self.new ≡ moved_to stamp self.old }
    {
        if !is_recorder(self.role) {
            self.waiting.add(stamp);
        }
        self.position = stamp;
    }

    /// It acknowledges the stamps up to this one; a stamp above its position has no effect.
    pub(crate) fn acknowledge(&mut self, stamp: u64)
        ensures { self.new ≡ acknowledging stamp self.old }
    {
        if stamp <= self.position {
            self.waiting.end_up_to(stamp);
        }
    }
}

// Whether the role is a recorder's, whose stamps don't wait.
fn is_recorder(role: Role) -> bool
    ensures { result ≡ is_keep (Some role) }
{
    matches!(role, Role::Keep)
}
