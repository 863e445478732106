ghost use Rattle.std.specs.Prelude.{◌≡◌};

/// A rectangle of a layer's path: its left and upper pixel and its size, in pixels.
#[derive(Clone, Copy, Debug)]
pub struct Rectangle {
    pub x: u32,
    pub y: u32,
    pub width: u32,
    pub height: u32,
}

impl Rectangle {
    pub(crate) fn new(x: u32, y: u32, width: u32, height: u32) -> Rectangle
        ensures { result ≡ record { x = x; y = y; width = width; height = height } }
    {
        Rectangle {
            x,
            y,
            width,
            height,
        }
    }
}
