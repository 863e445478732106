/// A place of the screen: a character, the palette's indexes of its ink and its paper, whether it is
/// underlined, and whether it is one half of a character that takes two places.
#[derive(Clone, Copy, Debug, PartialEq, Eq)]
pub struct Cell {
    pub ch: char,
    pub ink: u8,
    pub paper: u8,
    pub under: bool,
    pub half: Half,
}

/// A character of one place, or the left or the right half of one that takes two.
#[derive(Clone, Copy, Debug, PartialEq, Eq)]
pub enum Half {
    Whole,
    Left,
    Right,
}
