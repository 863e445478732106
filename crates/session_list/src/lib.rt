//! What runs in a service, for its operator: its sessions, with the host, the age, the viewers and the traffic of each,
//! and counts of what came to pass.
//!
//! The service tells what begins, joins, leaves and ends; the operator reads it as JSON or as the text of Prometheus, and
//! asks that a session is ended. What a link has carried is counted where it is read and written, by `TrafficHelper`. So
//! the list is read without stopping any session. Contracts tell nothing of it: it is shared by threads, and the service
//! decides nothing by it but which sessions it stops.
#![tactic(auto)]

mod counts;
mod ends;
mod helper;
mod json;
mod list;
mod metrics;
mod outside;
mod row;
#[cfg(test)]
mod tests;
mod traffic;

pub use counts::Fault;
pub use ends::{TrafficSink, TrafficSource};
pub use helper::TrafficHelper;
pub use list::{Ending, SessionList};
pub use outside::Outside;
pub use traffic::Traffic;
