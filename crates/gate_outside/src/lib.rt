//! The program's edge: what it reads from and writes to, as traits with a written meaning and a count
//! of faults, and forms of them in memory and over std's streams.
//!
//! What a source has left and what a sink holds are optional, since a real stream doesn't tell them;
//! where they are told, a call's contract is an equation on them (`specs/Edge.antt`). A fault is
//! answered only where the count of faults rose in that call.
#![tactic(auto)]

mod again;
mod bell;
mod clock;
mod copying;
mod counted;
mod dialer;
mod dice;
mod failed;
mod helper;
mod job;
mod mem_bell;
mod mem_clock;
mod mem_dialer;
mod mem_dice;
mod mem_helper;
mod mem_net;
mod mem_sink;
mod mem_source;
mod mem_spawner;
mod net;
mod seat;
mod sink;
mod source;
mod spawner;
mod std_sink;
mod std_source;
mod sure_source;
#[cfg(test)]
mod tests;
mod waking;
mod writing;

pub use again::Again;
pub use bell::Bell;
pub use clock::Clock;
pub use counted::Counted;
pub use dialer::{DialFault, Dialer};
pub use dice::Dice;
pub use failed::Failed;
pub use helper::Helper;
pub use job::Job;
pub use mem_bell::MemBell;
pub use mem_clock::MemClock;
pub use mem_dialer::MemDialer;
pub use mem_dice::MemDice;
pub use mem_helper::MemHelper;
pub use mem_net::MemNet;
pub use mem_sink::MemSink;
pub use mem_source::MemSource;
pub use mem_spawner::MemSpawner;
pub use net::Net;
pub use seat::Seat;
pub use sink::Sink;
pub use source::Source;
pub use spawner::{Spawner, Way, start_by};
pub use std_sink::StdSink;
pub use std_source::StdSource;
pub use sure_source::SureSource;
pub use waking::{
    ring_after_feed, ring_after_leave, ring_after_take, ring_after_write, wait_for_drawing,
    wait_for_news, wait_for_room,
};
pub use writing::write_all;
