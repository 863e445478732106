use canvas::Canvas;
use guac_framing::BadAt;

/// Where the sync stands whose picture is shown.
#[derive(Clone, Copy, Debug, PartialEq, Eq)]
pub struct Marks {
    /// The place behind it, in bytes; 0 where there is none.
    pub place: usize,
    /// Its number, counted from 1; 0 where there is none.
    pub frame: usize,
    /// Its stamp; 0 where there is none.
    pub stamp: u64,
    /// How many syncs were read in all.
    pub syncs: usize,
}

/// Why the reading of a stream ended.
#[derive(Clone, Copy, Debug, PartialEq, Eq)]
pub enum End {
    /// The stream was read whole.
    Whole,
    /// The last instruction isn't finished.
    Cut,
    /// No instruction can stand there; the place is counted from where the reading ended.
    Bad(BadAt),
}

/// What a look at a stream found.
#[derive(Drop)]
pub struct Looked {
    /// What a viewer shows who was given the stream up to the sync.
    pub canvas: Canvas,
    /// Where the sync stands.
    pub marks: Marks,
    /// How many bytes of whole instructions were read.
    pub read: usize,
    /// Why no more were read.
    pub end: End,
}
