use crate::{Acts, Bytes, Cause, Faces, How, Instrs, Role, Share, Text};

/// One event of a session. A session's history is the list of its entries; it begins with `Start`.
#[derive(Drop)]
pub enum Entry {
    /// The session opened, with its size in cells, its share mode, its terminal type, the faces
    /// of its screen, the most entries that it may have, and its first frame.
    Start {
        cols: u16,
        rows: u16,
        mode: Share,
        term: Text,
        faces: Faces,
        entries: u64,
        stamp: u64,
        frame: Instrs,
    },
    /// The Telnet host sent bytes, and a frame was made.
    Feed {
        bytes: Bytes,
        stamp: u64,
        frame: Instrs,
    },
    /// A viewer gave the screen another size, and a frame was made.
    Size {
        viewer: u32,
        cols: u16,
        rows: u16,
        stamp: u64,
        frame: Instrs,
    },
    /// A viewer joined and was given its first instructions.
    Join {
        viewer: u32,
        role: Role,
        first: Instrs,
    },
    /// A viewer was brought to the newest stamp.
    Read {
        viewer: u32,
        how: How,
    },
    /// A viewer's instructions.
    Write {
        viewer: u32,
        acts: Acts,
    },
    /// Bytes were handed out for the Telnet host.
    Take {
        count: u64,
    },
    /// A viewer left.
    Leave {
        viewer: u32,
    },
    /// The session was closed.
    Close {
        cause: Cause,
    },
}
