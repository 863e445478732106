use crate::Cause;

/// The session was closed before, for this cause.
#[derive(Clone, Copy, Debug, PartialEq, Eq)]
pub struct Closed {
    pub cause: Cause,
}
