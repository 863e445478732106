use gate_model::Text;
use guac_framing::BadAt;
use shared_desk::Place;

/// How a viewer's messages ended (this project's own).
#[derive(Clone, Copy, Debug, PartialEq, Eq)]
pub enum WsEnd {
    /// The closing instruction was delivered, and sent.
    Ended,
    /// The viewer asked for an end, or the link was closed.
    Disconnected,
    /// No place was given; the viewer was sent `error` with this status.
    Refused(u16),
    /// A byte of a message is bad; its place is counted from the message's first.
    Bad(BadAt),
    /// The instruction that begins at this place of a message isn't finished.
    Cut { place: usize },
    /// A message has more than 4,096 instructions.
    TooLong,
    /// The link failed.
    LinkFault,
    /// The viewer had left.
    Left,
    /// The session has as many entries as it may.
    Worn,
    /// Want of memory.
    NoMemory,
}

/// How a viewer's messages ended; and its place with the ID of its session, where the door gave one, for the caller to
/// give back.
#[derive(Drop)]
pub struct WsRun {
    pub end: WsEnd,
    pub place: Option<(Text, Place)>,
}
