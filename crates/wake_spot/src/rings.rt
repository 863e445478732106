//! What a viewer remembers of the rings before it looks.

/// How often was rung for a viewer: for all who wait for frames, and for it alone, each up to 2^64 - 1 and then from 0
/// on (this project's own).
#[derive(Clone, Copy)]
pub struct Rings {
    pub(crate) frames: u64,
    pub(crate) held: u64,
}

impl Rings {
    /// How often was rung for all who wait for frames.
    pub fn frames(self) -> u64 {
        self.frames
    }

    /// How often was rung for the viewer alone, for which it waits while it is held.
    pub fn held(self) -> u64 {
        self.held
    }
}
