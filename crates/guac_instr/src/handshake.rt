//! What the instructions of a client say in the handshake.

ghost use Rattle.std.specs.Prelude.{◌≡◌, slice_get};
ghost use Rattle.gate_model.specs.text.ClientMeaning.{act_of};
ghost use Rattle.gate_model.specs.text.HelloMeaning.{greeting_of, selection, size_said};
ghost use Rattle.guac_instr.specs.Said.{said};

use crate::client::read_client;
use crate::hello::Hello;
use crate::values::value;
use gate_model::Act;
use guac_framing::Frame;

/// What the instruction says in the handshake (the Guacamole manual, "The Guacamole protocol"): Select where
/// the opcode is `select` and a value follows, with the first value, lent from the bytes of the instruction;
/// Size where [`read_client`] gives a size; Connect where the opcode is `connect`, whatever follows; Other
/// for anything else.
pub fn read_hello<'a>(frame: &Frame<'a>) -> Hello<'a>
    ensures { said result ≡ greeting_of frame.now }
{
    match value(frame, 0) {
        Some("select") => read_select(frame),
        Some("connect") => Hello::Connect,
        Some(_) => read_display(frame),
        None => Hello::Other,
    }
}

fn read_select<'a>(frame: &Frame<'a>) -> Hello<'a>
    ensures { said result ≡ selection (slice_get frame.now 1) }
{
    match value(frame, 1) {
        Some(name) => Hello::Select(name),
        None => Hello::Other,
    }
}

fn read_display<'a>(frame: &Frame<'a>) -> Hello<'a>
    ensures { said result ≡ size_said (act_of frame.now) }
{
    match read_client(frame) {
        Some(Act::Size { width, height }) => Hello::Size { width, height },
        _ => Hello::Other,
    }
}
