/// What the lines of a run did.
#[derive(Clone, Copy, Debug, PartialEq, Eq)]
pub struct Totals {
    /// How often the host sent bytes.
    pub feeds: u64,
    /// How many presses of keys were written.
    pub keys: u64,
    /// How many bytes were taken for the host.
    pub out: u64,
}
