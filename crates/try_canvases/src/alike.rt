//! Canvases compared.

use canvas::Canvas;

/// Whether the visible layer has the same size and the same pixels on both.
pub fn is_alike(left: &Canvas, right: &Canvas) -> bool {
    let (width, height) = left.layer_size(0);
    if right.layer_size(0) != (width, height) {
        return false;
    }
    for y in 0..height {
        if !is_line_alike(left, right, y, width) {
            return false;
        }
    }
    true
}

fn is_line_alike(left: &Canvas, right: &Canvas, y: u32, width: u32) -> bool {
    for x in 0..width {
        if left.pixel(0, x, y) != right.pixel(0, x, y) {
            return false;
        }
    }
    true
}
