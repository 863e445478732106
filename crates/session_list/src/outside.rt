//! What is counted outside of the service.

/// What the program counts beside its service: connections that couldn't be let in for want of descriptors, notes that
/// were lost, and of the pieces that hosts sent, how many there were and how long they took in all, in nanoseconds, until
/// the next could be read.
#[derive(Clone, Copy, Debug, PartialEq, Eq)]
pub struct Outside {
    pub descriptors: u64,
    pub notes: u64,
    pub turns: u64,
    pub nanoseconds: u64,
}
