use gate_model::Colour;

/// What a place of a layer shows (this project's own rule).
#[derive(Clone, Copy, Debug, PartialEq, Eq)]
pub enum Dot {
    /// The place is outside the layer's size.
    Outside,
    /// The pixel is clear: nothing was drawn there.
    Clear,
    /// The pixel's colour.
    Painted(Colour),
}
