ghost use Rattle.std.specs.Prelude.{◌≡◌};
ghost use Rattle.http_tunnel.specs.Connects.{tunnel_of};

use gate_model::{Bytes, Role, Text};
use guac_handshake::Welcome;
use shared_desk::{Place, ReaderPass, WriterPass};

/// A viewer's tunnel (this project's own): its session's ID, its place, and the text that wasn't handed out yet. A
/// read that is under way has the reader's pass.
#[derive(Drop)]
pub struct Tunnel {
    pub(crate) id: Text,
    // None while a read is under way.
    pub(crate) reader: Option<ReaderPass>,
    pub(crate) writer: WriterPass,
    pub(crate) role: Role,
    pub(crate) kept: Bytes,
    // A `disconnect` came while a read was under way, at whose end the tunnel goes.
    pub(crate) gone: bool,
}

impl Tunnel {
    /// The tunnel of a viewer that was let in. Its first read hands out what its Join gave.
    pub fn of(welcome: Welcome<Place>) -> Tunnel
        ensures { result ≡ tunnel_of welcome }
    {
        let Welcome { id, place, first } = welcome;
        let Place {
            reader,
            writer,
            role,
        } = place;
        Tunnel {
            id,
            reader: Some(reader),
            writer,
            role,
            kept: first,
            gone: false,
        }
    }
}
