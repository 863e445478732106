ghost use Rattle.std.specs.Prelude.{◌≡◌};
ghost use Rattle.guac_handshake.specs.Statuses.{status_of};

use crate::Refused;
use gate_model::statuses;

/// The status that a client is told for a door's refusal (the Guacamole manual, "Guacamole protocol reference", status
/// codes).
pub fn status_of(refused: Refused) -> u16
    ensures { result ≡ status_of refused }
{
    match refused {
        Refused::NoMemory => statuses::NO_MEMORY,
        Refused::Busy => statuses::SERVER_BUSY,
        Refused::Absent => statuses::NOT_FOUND,
        Refused::Conflict => statuses::CONFLICT,
        Refused::Dial => statuses::UPSTREAM_NOT_FOUND,
        Refused::Closed | Refused::Worn => statuses::SESSION_CLOSED,
        Refused::Forbidden => statuses::FORBIDDEN,
        Refused::TooMany => statuses::TOO_MANY,
    }
}
