/// Why a line ended the run. It has a last answer.
#[derive(Clone, Copy, Debug, PartialEq, Eq)]
pub(crate) enum Refused {
    /// The line with this number, counted from 1, is outside the grammar.
    BadLine(u64),
    /// The session has this many entries, and may have no more.
    Worn(u64),
}
