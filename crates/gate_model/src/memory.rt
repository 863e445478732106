use std::alloc::{AllocError, AllocFailed};

/// Want of memory: an allocation was refused. The one answer that may come at any time, and always
/// the last that a call looks at (this project's own rule).
#[derive(Clone, Copy, Debug, PartialEq, Eq)]
pub struct NoMemory;

impl From<AllocError> for NoMemory {
    fn from(_refused: AllocError) -> NoMemory {
        NoMemory
    }
}

impl<T: Drop> From<AllocFailed<T>> for NoMemory {
    fn from(_refused: AllocFailed<T>) -> NoMemory {
        NoMemory
    }
}
