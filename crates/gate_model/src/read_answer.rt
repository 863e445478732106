/// What a read gave (this project's own rule).
#[derive(Clone, Copy, Debug, PartialEq, Eq)]
pub enum ReadAnswer {
    /// The frames after the viewer's position: how many, at most 2^32 - 1, the newest stamp, and
    /// whether the closing instruction followed.
    Frames {
        count: u32,
        stamp: u64,
        closed: bool,
    },
    /// Instructions of the viewer's own that lead to the newest stamp, and whether the closing
    /// instruction followed.
    Fresh {
        stamp: u64,
        closed: bool,
    },
    /// The closing instruction was given before.
    Ended,
    /// The viewer has every frame.
    Empty,
    /// So many stamps that the viewer was given aren't acknowledged.
    Hold {
        waiting: u32,
    },
}
