use gate_model::Acts;
use guac_framing::BadAt;

/// What the text of a line `write N TEXT` says.
#[derive(Drop)]
pub enum Reading {
    /// Whole instructions: the acts of those that have a meaning, in order, and how many have none.
    Whole { acts: Acts, passed: u32 },
    /// The instruction that begins at this place isn't finished at the text's end.
    Cut(usize),
    /// A byte is bad; its place is counted from the text's beginning.
    Bad(BadAt),
    /// There are more than 4,096 instructions.
    TooMany,
}
