//! One instruction of a client, read as it comes.

ghost use Rattle.std.specs.Prelude.{◌≡◌, ◌<◌, ◌≤◌, IfOk, Err, length};
ghost use Rattle.gate_outside.specs.Edge.{CountsFault};
ghost use Rattle.gate_model.specs.text.HelloMeaning.{greeting_of};
ghost use Rattle.guac_handshake.specs.Asks.{connects_as};
ghost use Rattle.guac_handshake.specs.Heard.{HasHeard, said_behind, said_first, said_of, wish_said};

use crate::Request;
use crate::connecting::{owned, read_begin, read_join};
use crate::expected::{Expected, Said};
use crate::request::Selected;
use crate::stop::Stop;
use crate::unread::Unread;
use gate_model::NoMemory;
use gate_model::statuses::BAD_REQUEST;
use gate_outside::Source;
use guac_framing::{Frame, Next, next_instruction};
use guac_instr::{Hello, read_hello};
use std::alloc::Global;

/// Reads the next instruction, and says what it asks. `piece` is where bytes are read to, and isn't empty.
pub(crate) fn hear<S: Source>(
    alloc: Global,
    source: &mut S,
    unread: &mut Unread,
    piece: &mut [u8],
    expected: Expected<'_>,
) -> Result<Said, Stop>
    requires { 0 < length piece.old }
    ensures heard { HasHeard expected.entry (S.left source.old) (S.left source.new) unread.old unread.new result }
    ensures reads { CountsFault (result ≡ Err Stop.ReadFault) (S.faults source.old) (S.faults source.new) }
{
    loop {
        match next_instruction(unread.as_slice()) {
            Next::Whole(frame, count) => {
                let said = said(alloc, &frame, expected)?;
                unread.pass(count);
                return Ok(said);
            }
            Next::More => {
                if !unread.read(source, piece)? {
                    return Err(Stop::Ended);
                }
            }
            Next::Bad(_) => return Err(Stop::Refused(BAD_REQUEST)),
        }
    }
}

// What the instruction says.
fn said(alloc: Global, frame: &Frame<'_>, expected: Expected<'_>) -> Result<Said, NoMemory>
    ensures { IfOk result (λ said. said ≡ said_of expected.entry frame.now) }
{
    match expected {
        Expected::Select => said_first(alloc, frame),
        Expected::Connect(selected, size) => said_behind(alloc, frame, selected, size),
    }
}

fn said_first(alloc: Global, frame: &Frame<'_>) -> Result<Said, NoMemory>
    ensures { IfOk result (λ said. said ≡ said_first (greeting_of frame.now)) }
{
    match read_hello(frame) {
        Hello::Select(name) => Ok(Said::Select(owned(alloc, name)?)),
        Hello::Size { .. } | Hello::Connect | Hello::Other => Ok(Said::Bad),
    }
}

fn said_behind(
    alloc: Global,
    frame: &Frame<'_>,
    selected: &Selected,
    size: Option<(u32, u32)>,
) -> Result<Said, NoMemory>
    ensures { IfOk result (λ said. said ≡ said_behind (greeting_of frame.now) selected.now frame.now size) }
{
    match read_hello(frame) {
        Hello::Size { width, height } => Ok(Said::Size((width, height))),
        Hello::Connect => said_connect(alloc, frame, selected, size),
        Hello::Select(_) | Hello::Other => Ok(Said::Other),
    }
}

// What `connect` asks.
fn said_connect(
    alloc: Global,
    frame: &Frame<'_>,
    selected: &Selected,
    size: Option<(u32, u32)>,
) -> Result<Said, NoMemory>
    ensures { IfOk result (λ said. said ≡ wish_said (connects_as selected.now frame.now size)) }
{
    match selected {
        Selected::Telnet => match read_begin(alloc, frame, size)? {
            Some(ask) => Ok(Said::Ask(Request::Begin(ask))),
            None => Ok(Said::Bad),
        },
        Selected::Known(id) => match read_join(frame) {
            Some(asked) => {
                let id = owned(alloc, id.as_str())?;
                Ok(Said::Ask(Request::Join { id, asked }))
            }
            None => Ok(Said::Bad),
        },
    }
}
