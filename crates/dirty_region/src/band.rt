/// A band of rows of a screen that moves: the first row where it comes to stand, the first row where it
/// stood, and how many rows it has. Rows count from 0.
#[derive(Clone, Copy, Debug, PartialEq, Eq, Drop)]
pub struct Band {
    pub top: u16,
    pub from: u16,
    pub height: u16,
}
