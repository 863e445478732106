//! What serves one viewer: a loop that hears it, a loop that shows it what it is given, and the call that greets
//! a connection and then runs both beside each other. No turn is held while a source is read, a sink is written
//! or a bell is waited for.
//!
//! `IntakeRun` of `specs/Intakes.antt`, `OutletRun` of `specs/Outlets.antt` and `UserRun` of `specs/Users.antt`
//! say what each did: which entries its pass gained, which bytes it moved, and why it ended. `ShowsScreen` of
//! `specs/Laws.antt` says what of it a viewer sees.
#![tactic(auto)]

mod ends;
mod hearing;
pub mod laws;
mod serving;
mod showing;

pub use ends::{IntakeEnd, OutletEnd, UserEnd, Visit};
pub use hearing::intake;
pub use serving::serve_user;
pub use showing::outlet;
