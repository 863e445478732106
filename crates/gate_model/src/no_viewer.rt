/// The viewer never joined, or has left.
#[derive(Clone, Copy, Debug, PartialEq, Eq)]
pub struct NoViewer;
