use std::sync::Wait;

/// A job that a thread runs to its end (this project's own).
pub trait Job: Send + Drop + 'static {
    /// Runs it.
    fn run<R: Wait>(self, rt: &R);
}
