//! The opening of a session.

ghost use Rattle.std.specs.Prelude.{◌≡◌, IfOk};

use crate::desk::Desk;
use crate::drawing::{Drawing, next_stamp};
use crate::frames::Frames;
use crate::host::Host;
use crate::log::Log;
use crate::outgoing::Outgoing;
use gate_model::{NoMemory, Setup};
use std::alloc::Global;
use viewer_book::Book;

impl Desk {
    ghost use Rattle.gate_model.specs.session.Steps.{IsSetup};
    ghost use Rattle.desk_core.specs.Calls.{Opened};

    /// Opens a session of 1 to 512 columns, 1 to 256 rows, a terminal type of 1 to 40 characters U+0021
    /// to U+007E and at most 1 to 2^40 entries, and draws its first frame at the moment `now` (this
    /// project's own rule).
    pub fn start(alloc: Global, setup: Setup, now: u64) -> Result<Desk, NoMemory>
        requires { IsSetup setup }
        ensures opened { IfOk result (Opened setup now) }
        ensures one { IfOk result (λ d. d.entries ≡ 1) }
    {
        let stamp = next_stamp(0, now);
        let book = Book::new(alloc)?;
        let host = Host::new(alloc, setup.faces, setup.cols, setup.rows)?;
        let first = Drawing::first(alloc, &host.screen, stamp)?;
        let frames = Frames::first(alloc, first.frame.as_slice(), stamp)?;
        let log = Log::opened(&setup, stamp, &first.frame);
        Ok(Desk {
            setup,
            host,
            outgoing: Outgoing::new(alloc),
            frames,
            drawing: first.drawing,
            book,
            log,
            cause: None,
        })
    }
}
