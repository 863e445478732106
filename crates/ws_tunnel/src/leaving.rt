//! A viewer leaves.

ghost use Rattle.shared_desk.specs.Members.{Stays};
ghost use Rattle.ws_tunnel.specs.Runs.{Leaves};

use crate::WsEnd;
use gate_outside::Bell;
use shared_desk::WriterPass;
use std::sync::Wait;
use viewer_acts::leave;

/// Leaves, but where the viewer had left, and rings.
pub(crate) fn leave_at<R: Wait, B: Bell>(rt: &R, writer: &mut WriterPass, end: WsEnd, bell: &B)
    ensures stays { Stays writer.old writer.new }
    ensures leaves { Leaves end writer.old.viewer writer.old.view writer.new.view }
{
    match end {
        WsEnd::Left => {}
        WsEnd::Ended
        | WsEnd::Disconnected
        | WsEnd::Refused(_)
        | WsEnd::Bad(_)
        | WsEnd::Cut { .. }
        | WsEnd::TooLong
        | WsEnd::LinkFault
        | WsEnd::Worn
        | WsEnd::NoMemory => leave(rt, writer, bell),
    }
}
