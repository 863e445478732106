//! What a session's refusals are to who asked the door.

ghost use Rattle.std.specs.Prelude.{◌≡◌};
ghost use Rattle.guac_handshake.specs.Doors.{refused_of};

use guac_handshake::Refused;
use shared_desk::JoinRefusal;

/// The door's refusal for that of a session.
pub(crate) fn refused_of(refusal: JoinRefusal) -> Refused
    ensures { result ≡ refused_of refusal }
{
    match refusal {
        JoinRefusal::Closed(_) => Refused::Closed,
        JoinRefusal::Forbidden => Refused::Forbidden,
        JoinRefusal::TooMany { .. } => Refused::TooMany,
        JoinRefusal::Worn { .. } => Refused::Worn,
        JoinRefusal::NoMemory => Refused::NoMemory,
    }
}
