/// The parameters of a control sequence (ECMA-48, section 5.4), at most sixteen. A default is stored
/// as 65,535, and so is every place from `count` on.
#[derive(Clone, Copy, Debug, PartialEq, Eq)]
pub struct Params {
    pub values: [u16; 16],
    pub count: u8,
}

/// A control function or a character, as the screen is given it (ECMA-48).
#[derive(Clone, Copy, Debug, PartialEq, Eq)]
pub enum Control {
    /// A character to be printed.
    Print(char),
    /// A control character of the C0 set, by its code.
    Code(u8),
    /// An escape sequence without intermediate bytes, by its final byte.
    Esc(u8),
    /// A control sequence without intermediate bytes. It is private where its parameters begin
    /// with `?`.
    Csi {
        private: bool,
        params: Params,
        last: u8,
    },
}
