/// What is told of a recording.
#[derive(Clone, Copy, Debug, PartialEq, Eq)]
pub enum PlayForm {
    /// How many syncs it has, the first stamp and the last, whether it is closed, and how many bytes are cut.
    Info,
    /// What it shows at the last sync whose stamp isn't above this one.
    At(u64),
    /// The keys of a captured stream of a client.
    Keys,
}
