/// How many entries a session has, and how many bytes wait for its host.
#[derive(Clone, Copy, Debug, PartialEq, Eq)]
pub(crate) struct Level {
    pub entries: u64,
    pub pending: u64,
}
