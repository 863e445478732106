/// The buffer of a key.
#[derive(Clone, Copy, Debug, PartialEq, Eq)]
pub struct Slot {
    /// The layer, from -1 down to -1,024.
    pub layer: i32,
    pub kind: SlotKind,
}

/// How a key came by its buffer.
#[derive(Clone, Copy, Debug, PartialEq, Eq)]
pub enum SlotKind {
    /// It had the buffer already.
    Held,
    /// The buffer is the next one, which has no size and no pixels yet.
    Made,
    /// The buffer was that of the key used longest ago, whose glyph it still shows.
    Reused,
}
