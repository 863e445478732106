//! Messages come and go.

ghost use Rattle.std.specs.Prelude.{◌≡◌, [], ◌∷◌, Err, IfErr, IfOk};
ghost use Rattle.gate_outside.specs.Edge.{CountsFault};
ghost use Rattle.ws_tunnel.specs.Links.{HasSent, came_messages, end_of_link};
ghost use Rattle.ws_tunnel.specs.Served.{IsLinkEnd, NoMessage};
ghost use Rattle.ws_tunnel.specs.declared.ends.WsEnd.TheVariants as ends;

use crate::{Got, LinkFailed, Messages, WsEnd};
use std::alloc::Global;
use std::sync::Wait;

// The end at a call that was refused.
fn end_of(failed: LinkFailed) -> WsEnd
    ensures { result ≡ end_of_link failed }
{
    match failed {
        LinkFailed::Failed => WsEnd::LinkFault,
        LinkFailed::NoMemory => WsEnd::NoMemory,
    }
}

/// The next message; where the link was closed it ends as Disconnected.
pub(crate) fn receive<R: Wait, M: Messages>(
    rt: &R,
    alloc: Global,
    link: &mut M,
) -> Result<Vec<u8>, WsEnd>
    ensures came { IfOk result (λ message. M.left link.old ≡ came_messages (message.items ∷ []) (M.left link.new)) }
    ensures none { IfErr result (λ end. (M.left link.new ≡ M.left link.old) × NoMessage (M.left link.old) end) }
    ensures sent { M.sent link.new ≡ M.sent link.old }
    ensures faults { CountsFault (result ≡ Err ends.LinkFault) (M.faults link.old) (M.faults link.new) }
{
    let mut message = Vec::new(alloc);
    match link.receive(rt, &mut message) {
        Ok(Got::Message) => Ok(message),
        Ok(Got::Closed) => Err(WsEnd::Disconnected),
        Err(failed) => Err(end_of(failed)),
    }
}

/// Sends a text.
pub(crate) fn send<R: Wait, M: Messages>(rt: &R, link: &mut M, text: &[u8]) -> Result<(), WsEnd>
    ensures sent { HasSent (M.sent link.old) (M.sent link.new) text.now result }
    ensures left { M.left link.new ≡ M.left link.old }
    ensures kind { IfErr result IsLinkEnd }
    ensures faults { CountsFault (result ≡ Err ends.LinkFault) (M.faults link.old) (M.faults link.new) }
{
    match link.send(rt, text) {
        Ok(()) => Ok(()),
        Err(failed) => Err(end_of(failed)),
    }
}
