//! One message is answered.

ghost use Rattle.std.specs.Prelude.{◌≡◌, ◌≤◌, ℕ, List, [], IfErr, false, length};
ghost use Rattle.gate_model.specs.Limits.{most_acts};
ghost use Rattle.gate_model.specs.session.Delivered.{ended};
ghost use Rattle.shared_desk.specs.Members.{Stays};
ghost use Rattle.ws_tunnel.specs.Heard.{IsMessage};
ghost use Rattle.ws_tunnel.specs.Runs.{AnswerRun, HasPut, IsOwn, OfOneViewer, ReadsBehind, over_of, put_of};

use crate::WsEnd;
use crate::asking::{acts_of, end_place};
use gate_model::Act;
use gate_outside::Bell;
use shared_desk::{ReadAnswer, ReadRefusal, ReaderPass, WriteRefusal, WriterPass, meet};
use std::alloc::Global;
use std::sync::Wait;
use viewer_acts::write_acts;

// Whether a write goes on to the read.
fn put_of(written: Result<(), WriteRefusal>) -> Result<(), WsEnd>
    ensures { result ≡ put_of written }
{
    match written {
        Ok(()) | Err(WriteRefusal::Closed(_)) => Ok(()),
        Err(WriteRefusal::NoViewer) => Err(WsEnd::Left),
        Err(WriteRefusal::Worn { .. }) => Err(WsEnd::Worn),
        Err(WriteRefusal::NoMemory) => Err(WsEnd::NoMemory),
    }
}

// Does what acts ask. A session that is closed loses those that it refuses.
fn put<R: Wait, B: Bell>(
    rt: &R,
    alloc: Global,
    writer: &mut WriterPass,
    acts: &[Act],
    bell: &B,
) -> Result<(), WsEnd>
    requires { length acts.now ≤ most_acts }
    ensures stays { Stays writer.old writer.new }
    ensures put { HasPut writer.old.viewer writer.old.view writer.new.view acts.now result }
{
    let written = write_acts(rt, alloc, writer, acts, bell);
    // So where the viewer has left, its Leave stands in what the pass has seen.
    writer.history_is_sound();
    put_of(written)
}

// Whether the viewer is at its end by a read's answer.
fn over_of(answer: Result<ReadAnswer, ReadRefusal>) -> Result<bool, WsEnd>
    ensures { result ≡ over_of answer }
{
    match answer {
        Ok(ReadAnswer::Frames { closed, .. } | ReadAnswer::Fresh { closed, .. }) => Ok(closed),
        Ok(ReadAnswer::Ended) => Ok(true),
        Ok(ReadAnswer::Empty | ReadAnswer::Hold { .. }) => Ok(false),
        Err(ReadRefusal::NoViewer) => Err(WsEnd::Left),
        Err(ReadRefusal::Worn { .. }) => Err(WsEnd::Worn),
        Err(ReadRefusal::NoMemory) => Err(WsEnd::NoMemory),
    }
}

// Reads once, between two meetings, so that the read finds all that was written and no later write of the viewer.
fn read_behind<R: Wait>(
    rt: &R,
    reader: &mut ReaderPass,
    writer: &mut WriterPass,
    text: &mut Vec<u8>,
) -> Result<bool, WsEnd>
    requires one { OfOneViewer reader.old writer.old }
    requires empty { text.old.items ≡ [] }
    requires going { ended reader.old.view.seen reader.old.viewer ≡ false }
    ensures stays { Stays reader.old reader.new × Stays writer.old writer.new }
    ensures read { ReadsBehind reader.old.viewer reader.old.view writer.old.view reader.new.view writer.new.view text.new.items result }
{
    meet(reader, writer);
    // So the viewer has joined in what was seen before the read.
    reader.history_is_sound();
    let answer = reader.read(rt, text);
    meet(reader, writer);
    over_of(answer)
}

// Does what acts ask, up to the first that asks for an end, and then reads.
fn answer_acts<R: Wait, B: Bell>(
    rt: &R,
    alloc: Global,
    acts: &[Act],
    reader: &mut ReaderPass,
    writer: &mut WriterPass,
    bell: &B,
    text: &mut Vec<u8>,
) -> Result<bool, WsEnd>
    requires few { length acts.now ≤ most_acts }
    requires one { OfOneViewer reader.old writer.old }
    requires empty { text.old.items ≡ [] }
    requires going { ended reader.old.view.seen reader.old.viewer ≡ false }
    ensures stays { Stays reader.old reader.new × Stays writer.old writer.new }
    ensures ran { (message : List ℕ) → IsMessage message acts.now → AnswerRun reader.old.viewer reader.old.view writer.old.view reader.new.view writer.new.view message text.new.items result }
    ensures own { IfErr result IsOwn }
{
    let count = end_place(acts);
    match put(rt, alloc, writer, &acts[..count], bell) {
        Ok(()) => {
            if count < acts.len() {
                Err(WsEnd::Disconnected)
            } else {
                read_behind(rt, reader, writer, text)
            }
        }
        Err(end) => Err(end),
    }
}

/// Does what a message asks, and puts the answer into the text, which is empty. It answers whether the viewer is then at
/// its end.
pub(crate) fn answer<R: Wait, B: Bell>(
    rt: &R,
    alloc: Global,
    message: &[u8],
    reader: &mut ReaderPass,
    writer: &mut WriterPass,
    bell: &B,
    text: &mut Vec<u8>,
) -> Result<bool, WsEnd>
    requires one { OfOneViewer reader.old writer.old }
    requires empty { text.old.items ≡ [] }
    requires going { ended reader.old.view.seen reader.old.viewer ≡ false }
    ensures stays { Stays reader.old reader.new × Stays writer.old writer.new }
    ensures ran { AnswerRun reader.old.viewer reader.old.view writer.old.view reader.new.view writer.new.view message.now text.new.items result }
    ensures own { IfErr result IsOwn }
{
    match acts_of(alloc, message) {
        Ok(acts) => answer_acts(rt, alloc, acts.as_slice(), reader, writer, bell, text),
        Err(end) => Err(end),
    }
}
