use crate::line::Line;

/// A line, and whether its answer is told.
#[derive(Drop)]
pub enum Order {
    /// The answer is told.
    Told(Line),
    /// The answer isn't told. The line of the frames is.
    Untold(Line),
}
