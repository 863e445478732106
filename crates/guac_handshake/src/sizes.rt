//! How many cells a display has.

ghost use Rattle.std.specs.Prelude.{◌≡◌, ◌≤◌};
ghost use Rattle.guac_handshake.specs.Asks.{cols_of, rows_of};

/// The columns of a display of this width and height in pixels, 8 pixels each and kept within 1 to 512; 80 without a
/// size (this project's own).
pub fn columns_of(size: Option<(u32, u32)>) -> u16
    ensures exact { result ≡ cols_of size }
    ensures some { 1 ≤ result }
    ensures few { result ≤ 512 }
{
    match size {
        Some((width, _)) => (width / 8).clamp(1, 512) as u16,
        None => 80,
    }
}

/// The rows of such a display, 16 pixels each and kept within 1 to 256; 24 without a size (this project's own).
pub fn rows_of(size: Option<(u32, u32)>) -> u16
    ensures exact { result ≡ rows_of size }
    ensures some { 1 ≤ result }
    ensures few { result ≤ 256 }
{
    match size {
        Some((_, height)) => (height / 16).clamp(1, 256) as u16,
        None => 24,
    }
}
