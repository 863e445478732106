//! The sessions of the service and its door: who begins a session or joins one gets a place in it, and gives
//! it back.
//!
//! A session stands in a table under its ID, in a shelf that may be shared by threads. Its door keeps the
//! contract of a `Door` of `guac_handshake`, and says besides what a session begins with (`IsBegun` of
//! `specs/Begun.antt`) and what each call leaves of the table. A session may have a recorder, which is one more
//! viewer (`IsKeeper` of `specs/Recorders.antt`).
#![tactic(auto)]

mod causes;
mod door;
mod jobs;
mod making;
mod marks;
mod opening;
mod recorder;
mod recording;
mod refusals;
mod session;
mod telling;

pub use causes::find_closed;
pub use door::ServiceDoor;
pub use jobs::{PumpJob, SenderJob};
pub use marks::{Deserted, Ended};
pub use recorder::RecorderJob;
pub use session::{Session, close_backlogged, find_unrecorded, look, sweep, sweep_deserted};
pub use telling::{Marks, OwnMarks};
