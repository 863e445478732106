use crate::Ask;
use gate_model::{Asked, Text};

/// What the instructions of a handshake ask of a door.
#[derive(Drop)]
pub enum Request {
    /// A session that is to begin.
    Begin(Ask),
    /// A place in the session of this ID: the text that the client selected, and the role that it asks for.
    Join { id: Text, asked: Asked },
}

/// What the first instruction selects.
#[derive(Drop)]
pub(crate) enum Selected {
    /// A session that is to begin.
    Telnet,
    /// The session of this ID: the text that the client selected.
    Known(Text),
}
