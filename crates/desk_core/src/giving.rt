//! The text that a viewer is given: all of it, or for want of memory none.

ghost use Rattle.std.specs.Prelude.{◌≡◌, ◌++◌, OnErr, OnOk};
ghost use Rattle.gate_model.specs.text.Text.{texts};
ghost use Rattle.gate_model.specs.session.Delivered.{farewell};
ghost use Rattle.gate_model.specs.Sequences.{BeginsWith};
ghost use Rattle.desk_core.specs.Farewell.{farewell_of};
ghost use Rattle.desk_core.specs.Frames.{joined_texts};

use display_history::Kept;
use gate_model::statuses::SESSION_CLOSED;
use gate_model::{Cause, Instr, NoMemory};
use guac_instr::{text_of, texts_of};

/// Appends to the buffer the texts of the frames and that of the closing instruction, if the session was
/// closed.
pub(crate) fn give_frames(
    frames: &[Kept],
    cause: Option<Cause>,
    into: &mut Vec<u8>,
) -> Result<(), NoMemory>
    ensures appended { OnOk result (into.new.items ≡ into.old.items ++ joined_texts frames.now ++ texts (farewell_of cause)) }
    ensures buffer { OnErr result (into.new.items ≡ into.old.items) }
{
    let before = into.len();
    let done = put_frames(frames, cause, into);
    if done.is_err() {
        into.truncate(before);
    }
    done
}

/// Appends to the buffer the text of the instructions and that of the closing instruction, if the session
/// was closed.
pub(crate) fn give_list(
    list: &[Instr],
    cause: Option<Cause>,
    into: &mut Vec<u8>,
) -> Result<(), NoMemory>
    ensures appended { OnOk result (into.new.items ≡ into.old.items ++ texts list.now ++ texts (farewell_of cause)) }
    ensures buffer { OnErr result (into.new.items ≡ into.old.items) }
{
    let before = into.len();
    texts_of(list, into)?;
    let done = put_farewell(cause, into);
    if done.is_err() {
        into.truncate(before);
    }
    done
}

// Appends the texts and that of the closing instruction. Refused, it may have appended a front of them.
fn put_frames(frames: &[Kept], cause: Option<Cause>, into: &mut Vec<u8>) -> Result<(), NoMemory>
    ensures appended { OnOk result (into.new.items ≡ into.old.items ++ joined_texts frames.now ++ texts (farewell_of cause)) }
    ensures front { BeginsWith into.new.items into.old.items }
{
    for frame in frames {
        into.extend_from_slice(frame.text())?;
    }
    put_farewell(cause, into)
}

// Appends the text of the closing instruction, if the session was closed.
fn put_farewell(cause: Option<Cause>, into: &mut Vec<u8>) -> Result<(), NoMemory>
    ensures appended { OnOk result (into.new.items ≡ into.old.items ++ texts (farewell_of cause)) }
    ensures unchanged { OnErr result (into.new.items ≡ into.old.items) }
{
    match cause {
        Some(cause) => text_of(&farewell(cause), into),
        None => Ok(()),
    }
}

// The closing instruction.
fn farewell(cause: Cause) -> Instr
    ensures { result ≡ farewell cause }
{
    match cause {
        Cause::ServerEnd => Instr::Disconnect,
        Cause::LinkFault | Cause::Stopped | Cause::Worn => Instr::Error {
            status: SESSION_CLOSED,
        },
    }
}
