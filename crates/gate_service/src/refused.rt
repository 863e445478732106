//! With which status a connection was refused, for the list of what runs.

use crate::{ConnEnd, HttpEnd};
use gate_model::statuses::NO_MEMORY;
use http_front::code_beside;
use user_serve::UserEnd;
use ws_tunnel::{WsEnd, WsRun};

/// The Guacamole status with which a connection was refused, if it was: the one of its `error`, or of its answer over
/// HTTP. Where a door refuses a name, another may know it, so that the answer alone is counted.
pub(crate) fn refused_with(end: &ConnEnd) -> Option<u16> {
    match end {
        ConnEnd::User(UserEnd::Refused(status)) => Some(*status),
        ConnEnd::Ws(
            WsRun {
                end: WsEnd::Refused(status),
                ..
            },
        ) => Some(*status),
        ConnEnd::Http(HttpEnd::Answered(status)) => code_beside(*status),
        ConnEnd::NoMemory | ConnEnd::User(UserEnd::NoMemory) | ConnEnd::Http(HttpEnd::NoMemory) =>
            Some(NO_MEMORY),
        _ => None,
    }
}
