//! The two loops between a shared session and its Telnet host: one feeds the session what the host sends, the
//! other sends what the session has for the host. Each has a pass of its own, and no turn is held while a source
//! is read, a sink is written or a bell is waited for.
//!
//! `PumpRun` of `specs/Pumps.antt` and `SenderRun` of `specs/Senders.antt` say what each did: which entries its
//! pass gained, which bytes it moved, and why it ended.
#![tactic(auto)]

mod closing;
mod ends;
mod pumping;
mod sending;

pub use ends::{PumpEnd, SenderEnd};
pub use pumping::pump;
pub use sending::sender;
