use crate::size::Size;

/// A form of the program's words whose lines the input makes.
#[derive(Clone, Copy, Debug, PartialEq, Eq)]
pub enum TextForm {
    /// Draw the input on a screen of this size.
    Draw(Size),
    /// Do the script of the input; its session may have so many entries.
    Script(u64),
}
