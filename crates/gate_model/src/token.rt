use crate::Bytes;

/// A whole piece of a Telnet stream (RFC 854 and 855).
#[derive(Drop)]
pub enum Token {
    /// A data byte.
    Byte(u8),
    /// DO and its option.
    Do(u8),
    /// DONT and its option.
    Dont(u8),
    /// WILL and its option.
    Will(u8),
    /// WONT and its option.
    Wont(u8),
    /// A subnegotiation of at most 1,024 bytes, the option first, with doubled 255 undone. It may be
    /// empty.
    Sub(Bytes),
    /// A command of one byte, 241 to 249.
    Single(u8),
}
