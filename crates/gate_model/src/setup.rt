use crate::{Faces, Share, Text};

/// What a session is opened with: 1 to 512 columns, 1 to 256 rows, a share mode, a terminal type of
/// 1 to 40 characters U+0021 to U+007E, the faces that its screen has, and the most entries that it may
/// have, 1 to 2^40.
#[derive(Drop)]
pub struct Setup {
    pub cols: u16,
    pub rows: u16,
    pub mode: Share,
    pub term: Text,
    pub faces: Faces,
    pub entries: u64,
}
