use crate::size::Size;
use crate::totals::Totals;
use gate_model::{Asked, Bytes, Share};

/// A line that a run does (this project's own). A viewer's number is the one that its join was answered.
#[derive(Drop)]
pub enum Line {
    /// Nothing: it is empty, or a comment.
    Blank,
    /// It is outside the grammar.
    Bad,
    /// The moment is this one.
    At(u64),
    /// The session starts on a screen of this size, with this share mode and at most so many entries.
    Start(Size, Share, u64),
    /// The host sends 1 to 65,536 bytes.
    Server(Bytes),
    /// A viewer joins, and asks for this.
    Join(Asked),
    /// The viewer reads.
    Read(u32),
    /// The viewer writes a text of instructions.
    Write(u32, Bytes),
    /// The viewer gives the screen this size.
    Resize(u32, Size),
    /// At most so many bytes are taken for the host.
    Take(u32),
    /// The viewer leaves.
    Leave(u32),
    /// The session is closed.
    Close,
    /// The pixel at x and y of what the viewer sees.
    Pixel(u32, u64, u64),
    /// Whether two viewers see the same.
    Same(u32, u32),
    /// The viewer acknowledges the newest stamp.
    Acknowledge(u32),
    /// The newest stamp is told.
    Done,
    /// The viewer presses the key of this keysym.
    Press(u32, u32),
    /// Seven answers: these totals, and what the session and its viewers have come to.
    Totals(Totals),
}
