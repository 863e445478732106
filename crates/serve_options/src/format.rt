//! How notes are written.

/// How the notes of a service are written, a line for each (this project's own).
#[derive(Clone, Copy, Debug, PartialEq, Eq)]
pub enum LogFormat {
    /// As text.
    Text,
    /// As an object of JSON (RFC 8259).
    Json,
}
