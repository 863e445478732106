//! How notes are written.

/// How a note is written, on a line of its own (this project's own).
#[derive(Clone, Copy, Debug, PartialEq, Eq)]
pub enum Form {
    /// As text.
    Text,
    /// As an object of JSON (RFC 8259).
    Json,
}
