//! What a message asks.

ghost use Rattle.std.specs.Prelude.{◌≡◌, ◌≤◌, IfOk, length};
ghost use Rattle.gate_model.specs.Limits.{most_acts};
ghost use Rattle.ws_tunnel.specs.Heard.{end_place, goes_on};
ghost use Rattle.ws_tunnel.specs.Runs.{HasRead};

use crate::WsEnd;
use gate_model::{Act, Acts};
use script_grammar::{Reading, read_acts};
use std::alloc::Global;

/// The acts of a message of whole instructions, of which there may be 4,096.
pub(crate) fn acts_of(alloc: Global, message: &[u8]) -> Result<Acts, WsEnd>
    ensures read { HasRead message.now result }
    ensures few { IfOk result (λ acts. length acts ≤ most_acts) }
{
    let Ok(reading) = read_acts(alloc, message) else {
        return Err(WsEnd::NoMemory);
    };
    match reading {
        Reading::Whole { acts, passed: _ } => Ok(acts),
        Reading::Cut(place) => Err(WsEnd::Cut { place }),
        Reading::Bad(at) => Err(WsEnd::Bad(at)),
        Reading::TooMany => Err(WsEnd::TooLong),
    }
}

// Whether an act doesn't ask for an end.
fn goes_on(act: Act) -> bool
    ensures { result ≡ goes_on act }
{
    match act {
        Act::Disconnect => false,
        Act::Key { .. } | Act::Mouse { .. } | Act::Sync { .. } | Act::Size { .. } | Act::Nop => {
            true
        }
    }
}

/// How many acts stand before the first that asks for an end.
pub(crate) fn end_place(acts: &[Act]) -> usize
    ensures { result ≡ end_place acts.now }
{
    acts.iter().take_while(|act| goes_on(**act)).count()
}
