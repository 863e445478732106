//! The codes of Telnet's options, and of what is said of the terminal type.

/// Echo (RFC 857).
pub const ECHO: u8 = 1;

/// Suppress go ahead (RFC 858).
pub const SUPPRESS_GO_AHEAD: u8 = 3;

/// The terminal type (RFC 1091).
pub const TERMINAL_TYPE: u8 = 24;

/// The window size (RFC 1073).
pub const WINDOW_SIZE: u8 = 31;

/// Says the terminal type (RFC 1091).
pub const IS: u8 = 0;

/// Asks for the terminal type (RFC 1091).
pub const SEND: u8 = 1;
