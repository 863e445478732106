/// What a cell looks like: the face is U+0020 to U+007E, or U+FFFD for every other character. Ink
/// and paper are indexes of the palette.
#[derive(Clone, Copy, Debug, PartialEq, Eq)]
pub struct Key {
    pub face: char,
    pub under: bool,
    pub ink: u8,
    pub paper: u8,
}
