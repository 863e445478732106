//! Places that go back to the door.

ghost use Rattle.std.specs.Prelude.{◌≡◌, is_some};
ghost use Rattle.guac_handshake.specs.Views.{Gives};
ghost use Rattle.http_tunnel.specs.Places.{HasGiven};

use crate::tunnel::Tunnel;
use guac_handshake::Door;
use shared_desk::{Place, ReaderPass};
use std::sync::Wait;

/// Gives the place of a tunnel whose reader's pass was taken out.
pub(crate) fn give<R: Wait, D: Door<Place = Place>>(
    rt: &R,
    door: &mut D,
    tunnel: Tunnel,
    reader: ReaderPass,
)
    ensures { Gives (D.id_of tunnel.id) (D.view door.old) (D.view door.new) }
{
    let Tunnel {
        id,
        writer,
        role,
        ..
    } = tunnel;
    let place = Place {
        reader,
        writer,
        role,
    };
    door.give(rt, id.as_str(), place);
}

/// Gives the place of a tunnel that has both passes.
pub(crate) fn give_back<R: Wait, D: Door<Place = Place>>(rt: &R, door: &mut D, mut tunnel: Tunnel)
    ensures { HasGiven D.id_of (λ name. name ≡ tunnel.id) (is_some tunnel.reader) (D.view door.old) (D.view door.new) }
{
    if let Some(reader) = tunnel.reader.take() {
        give(rt, door, tunnel, reader);
    }
}
