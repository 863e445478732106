/// What a line of a load adds to.
#[derive(Clone, Copy, Debug, PartialEq, Eq)]
pub(crate) enum Kind {
    /// How often the host sent bytes.
    Feed,
    /// How many presses were written.
    Press,
    /// How many bytes were taken.
    Take,
    /// None of these.
    Other,
}
