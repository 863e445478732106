/// What an instruction of a client says in the handshake (the Guacamole manual, "The Guacamole protocol").
#[derive(Clone, Copy, Debug, PartialEq, Eq)]
pub enum Hello<'a> {
    /// It selects the protocol or the connection of this name.
    Select(&'a str),
    /// The size of the client's display in pixels, each at most 2^31 - 1.
    Size { width: u32, height: u32 },
    /// It asks to connect.
    Connect,
    /// Anything else.
    Other,
}
