/// The most bytes of a recording, and of a captured stream (this project's own).
pub(crate) const MOST_BYTES: usize = 67_108_864;
