use crate::{Acts, Asked, Bytes, Cause};

/// A call on a session's desk.
#[derive(Drop)]
pub enum Event {
    /// Bytes of the Telnet host, and the clock.
    Feed { bytes: Bytes, now: u64 },
    /// A viewer joins.
    Join { asked: Asked },
    /// A viewer reads.
    Read { viewer: u32 },
    /// A viewer's instructions.
    Write { viewer: u32, acts: Acts },
    /// A viewer gives the screen another size.
    Resize { viewer: u32, cols: u16, rows: u16 },
    /// At most so many bytes are taken for the Telnet host.
    Take { most: u64 },
    /// A viewer leaves.
    Leave { viewer: u32 },
    /// The session is closed.
    Close { cause: Cause },
}
