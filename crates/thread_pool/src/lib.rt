//! Threads that have done a job and wait some time for the next one, since to start and to end a thread takes longer
//! than most jobs do.
//!
//! The pool starts no thread. Who has a job gives it; where no thread waits, it comes back, and its giver starts a thread
//! for it. A thread that has done its job asks for the next one. No clause says that a thread is woken, since none can
//! speak of time: tests show it.
#![tactic(auto)]

mod pool;
#[cfg(test)]
mod tests;
mod waiting;

pub use pool::Pool;
