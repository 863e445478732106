//! The codes of Telnet's commands (RFC 854, "TELNET COMMANDS").

/// Interpret as command: begins a command.
pub const IAC: u8 = 255;

/// Asks the other side to stop an option.
pub const DONT: u8 = 254;

/// Asks the other side to begin an option.
pub const DO: u8 = 253;

/// Refuses an option, or stops it.
pub const WONT: u8 = 252;

/// Offers to begin an option.
pub const WILL: u8 = 251;

/// Begins a subnegotiation.
pub const SB: u8 = 250;

/// Go ahead, the last of the commands of one byte.
pub const GA: u8 = 249;

/// No operation, the first of the commands of one byte.
pub const NOP: u8 = 241;

/// Ends a subnegotiation.
pub const SE: u8 = 240;
