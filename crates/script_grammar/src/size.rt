/// A screen's columns and rows.
#[derive(Clone, Copy, Debug, PartialEq, Eq)]
pub struct Size {
    /// 1 to 512.
    pub cols: u16,
    /// 1 to 256.
    pub rows: u16,
}
