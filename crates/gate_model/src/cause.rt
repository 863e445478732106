/// Why a session was closed.
#[derive(Clone, Copy, Debug, PartialEq, Eq)]
pub enum Cause {
    /// The Telnet host ended the connection. Viewers are sent `disconnect`.
    ServerEnd,
    /// The connection to the Telnet host failed. Viewers are sent `error` 523.
    LinkFault,
    /// The gateway stopped the session. Viewers are sent `error` 523.
    Stopped,
    /// The session has as many entries as it may have. Viewers are sent `error` 523.
    Worn,
}
