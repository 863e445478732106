//! The limits of the gateway (this project's own), each once. Contracts name the same numbers, in
//! `specs/Limits.antt`.

/// The most columns of a screen.
pub const MOST_COLUMNS: u16 = 512;

/// The most rows of a screen.
pub const MOST_ROWS: u16 = 256;

/// The most cells of a screen that the commands open.
pub const MOST_CELLS: u32 = 8_192;

/// The most bytes of one piece of the Telnet stream.
pub const MOST_PIECE: usize = 65_536;

/// The most bytes of a Telnet subnegotiation that has a meaning, counted undoubled.
pub const MOST_IN_SUB: usize = 1_024;

/// The most entries of a session.
pub const MOST_ENTRIES: u64 = 1 << 40;

/// The clock counts no further than this.
pub const MOST_CLOCK: u64 = 1 << 53;

/// The most stamps that may wait for a viewer's acknowledgement when it is given more.
pub const MOST_WAITING: usize = 64;

/// The most acts of one write.
pub const MOST_ACTS: usize = 4_096;

/// The most viewers that are there at once.
pub const MOST_LIVE: usize = 64;

/// The most viewers that ever join.
pub const MOST_JOINED: u32 = 1_000_000;

/// The most buffers: layers from -1 down.
pub const MOST_BUFFERS: u64 = 1_024;

/// The most pixels of a layer's width, and of its height.
pub const MOST_EXTENT: u32 = 4_096;

/// The most bytes of an instruction, with its `;`.
pub const MOST_INSTRUCTION: usize = 8_192;

/// The most elements of an instruction.
pub const MOST_ELEMENTS: usize = 128;

/// The most frames that are kept for viewers who are behind.
pub const MOST_KEPT_FRAMES: usize = 256;

/// The most bytes of the text of the kept frames.
pub const MOST_KEPT_TEXT: usize = 8_388_608;
