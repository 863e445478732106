//! The real ends of the service: TCP, threads, a counter for a clock, ChaCha20 for dice, and a bell that
//! threads sleep on. They tell contracts nothing of what a system's stream gives or takes; what their calls
//! promise is what the traits of `gate_outside` ask.
#![tactic(auto)]

mod bell;
mod clock;
mod common;
mod connection;
mod dialing;
mod dice;
mod helper;
mod keeping;
mod limits;
mod net;
mod rules;
mod sink;
mod spares;
mod spawner;
#[cfg(test)]
mod tests;
mod turning_away;
mod watch;

pub use bell::ParkBell;
pub use clock::CountClock;
pub use connection::TcpEnd;
pub use dialing::TcpDialer;
pub use dice::ChaChaDice;
pub use helper::TcpHelper;
pub use limits::Limits;
pub use net::TcpNet;
pub use rules::{RuleFault, Rules};
pub use sink::TcpSink;
pub use spawner::ThreadSpawner;
pub use watch::Watch;
