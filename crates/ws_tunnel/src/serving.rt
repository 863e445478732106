//! A viewer over messages.

ghost use Rattle.std.specs.Prelude.{◌≡◌, ℕ, List, [], ◌∷◌, Err, false};
ghost use Rattle.gate_model.specs.session.Delivered.{ended};
ghost use Rattle.gate_outside.specs.Edge.{CountsFault};
ghost use Rattle.guac_handshake.specs.Doors.{Grants};
ghost use Rattle.shared_desk.specs.Hosts.{IsFresh};
ghost use Rattle.shared_desk.specs.Members.{Stays};
ghost use Rattle.ws_tunnel.specs.Links.{Exchanges, sent_messages};
ghost use Rattle.ws_tunnel.specs.Runs.{HasRun, IsStart, NextRun, OfOneViewer, go_on};
ghost use Rattle.ws_tunnel.specs.Served.{AsksDoor, HasAnsweredAll, HasServed, HasVisited, IsAdmitted};
ghost use Rattle.ws_tunnel.specs.declared.ends.WsEnd.TheVariants as ends;

use crate::answering::answer;
use crate::leaving::leave_at;
use crate::moving::{receive, send};
use crate::opening::open;
use crate::texts::ready;
use crate::{Messages, WsEnd, WsRun};
use gate_model::Text;
use gate_outside::Bell;
use guac_handshake::{Door, Welcome};
use shared_desk::{Place, ReaderPass, WriterPass, meet};
use std::alloc::Global;
use std::sync::Wait;
use std::thread::Threads;

// Answers a message, and says why it was the last.
fn answer_message<R: Wait, M: Messages, B: Bell>(
    rt: &R,
    alloc: Global,
    link: &mut M,
    message: &[u8],
    reader: &mut ReaderPass,
    writer: &mut WriterPass,
    bell: &B,
) -> Result<(), WsEnd>
    requires one { OfOneViewer reader.old writer.old }
    requires going { ended reader.old.view.seen reader.old.viewer ≡ false }
    ensures stays { Stays reader.old reader.new × Stays writer.old writer.new }
    ensures ran { (sent : List (List ℕ)) × (M.sent link.new ≡ sent_messages (M.sent link.old) sent) × NextRun reader.old.viewer reader.old.view writer.old.view reader.new.view writer.new.view (M.left link.new) (message.now ∷ []) sent result }
    ensures left { M.left link.new ≡ M.left link.old }
    ensures faults { CountsFault (result ≡ Err ends.LinkFault) (M.faults link.old) (M.faults link.new) }
{
    let mut text = Vec::new(alloc);
    match answer(rt, alloc, message, reader, writer, bell, &mut text) {
        Ok(over) => match send(rt, link, &text) {
            Ok(()) => go_on(over),
            Err(end) => Err(end),
        },
        Err(end) => Err(end),
    }
}

// Whether a viewer that was answered goes on.
fn go_on(over: bool) -> Result<(), WsEnd>
    ensures { result ≡ go_on over }
{
    if over { Err(WsEnd::Ended) } else { Ok(()) }
}

// Answers the next message, and says why it was the last.
fn answer_next<R: Wait, M: Messages, B: Bell>(
    rt: &R,
    alloc: Global,
    link: &mut M,
    reader: &mut ReaderPass,
    writer: &mut WriterPass,
    bell: &B,
) -> Result<(), WsEnd>
    requires one { OfOneViewer reader.old writer.old }
    requires going { ended reader.old.view.seen reader.old.viewer ≡ false }
    ensures stays { Stays reader.old reader.new × Stays writer.old writer.new }
    ensures ran { Exchanges (M.left link.old) (M.left link.new) (M.sent link.old) (M.sent link.new) (λ received sent. NextRun reader.old.viewer reader.old.view writer.old.view reader.new.view writer.new.view (M.left link.new) received sent result) }
    ensures faults { CountsFault (result ≡ Err ends.LinkFault) (M.faults link.old) (M.faults link.new) }
{
    match receive(rt, alloc, link) {
        Ok(message) => answer_message(rt, alloc, link, &message, reader, writer, bell),
        Err(end) => Err(end),
    }
}

// Answers messages until there is an end.
fn answer_all<R: Wait, M: Messages, B: Bell>(
    rt: &R,
    alloc: Global,
    link: &mut M,
    first: &[u8],
    reader: &mut ReaderPass,
    writer: &mut WriterPass,
    bell: &B,
) -> WsEnd
    requires one { OfOneViewer reader.old writer.old }
    requires start { IsStart reader.old.viewer reader.old.view writer.old.view first.now }
    ensures stays { Stays reader.old reader.new × Stays writer.old writer.new }
    ensures ran { Exchanges (M.left link.old) (M.left link.new) (M.sent link.old) (M.sent link.new) (λ received sent. HasRun reader.old.viewer reader.old.view.seen reader.new.view writer.new.view first.now (M.left link.new) received sent result) }
    ensures faults { CountsFault (result ≡ ends.LinkFault) (M.faults link.old) (M.faults link.new) }
{
    for _ in rt.forever() {
        match answer_next(rt, alloc, link, reader, writer, bell) {
            Ok(()) => {}
            Err(end) => return end,
        }
    }
    unreachable!()
}

// Sends `ready` with the ID and what the viewer was given first, and then answers its messages.
fn serve<R: Wait, M: Messages, B: Bell>(
    rt: &R,
    alloc: Global,
    link: &mut M,
    id: &Text,
    first: &[u8],
    reader: &mut ReaderPass,
    writer: &mut WriterPass,
    bell: &B,
) -> WsEnd
    requires one { OfOneViewer reader.old writer.old }
    requires start { IsStart reader.old.viewer reader.old.view writer.old.view first.now }
    ensures stays { Stays reader.old reader.new × Stays writer.old writer.new }
    ensures ran { Exchanges (M.left link.old) (M.left link.new) (M.sent link.old) (M.sent link.new) (λ received sent. HasAnsweredAll reader.old.viewer reader.old.view.seen id.now first.now reader.new.view writer.new.view (M.left link.new) received sent result) }
    ensures faults { CountsFault (result ≡ ends.LinkFault) (M.faults link.old) (M.faults link.new) }
{
    let Ok(text) = ready(alloc, id, first) else {
        return WsEnd::NoMemory;
    };
    match send(rt, link, &text) {
        Ok(()) => answer_all(rt, alloc, link, first, reader, writer, bell),
        Err(end) => end,
    }
}

// Serves a viewer that was let in until there is an end, at which it leaves.
fn visit<R: Wait, M: Messages, B: Bell>(
    rt: &R,
    alloc: Global,
    link: &mut M,
    id: &Text,
    first: &[u8],
    reader: &mut ReaderPass,
    writer: &mut WriterPass,
    bell: &B,
) -> WsEnd
    requires one { OfOneViewer reader.old writer.old }
    requires start { IsStart reader.old.viewer reader.old.view writer.old.view first.now }
    ensures stays { Stays reader.old reader.new × Stays writer.old writer.new }
    ensures ran { Exchanges (M.left link.old) (M.left link.new) (M.sent link.old) (M.sent link.new) (λ received sent. HasVisited reader.old.viewer reader.old.view.seen id.now first.now reader.new.view writer.new.view (M.left link.new) received sent result) }
    ensures faults { CountsFault (result ≡ ends.LinkFault) (M.faults link.old) (M.faults link.new) }
{
    let end = serve(rt, alloc, link, id, first, reader, writer, bell);
    leave_at(rt, writer, end, bell);
    meet(reader, writer);
    // So what both have seen is sound.
    writer.history_is_sound();
    end
}

// Serves a viewer at the place that the door gave.
fn admit<R: Wait, M: Messages, B: Bell>(
    rt: &R,
    alloc: Global,
    link: &mut M,
    welcome: Welcome<Place>,
    bell: &B,
) -> WsRun
    requires fresh { IsFresh welcome.place welcome.first }
    ensures ran { Exchanges (M.left link.old) (M.left link.new) (M.sent link.old) (M.sent link.new) (λ received sent. IsAdmitted welcome result.place (M.left link.new) received sent result.end) }
    ensures faults { CountsFault (result.end ≡ ends.LinkFault) (M.faults link.old) (M.faults link.new) }
{
    let Welcome { id, place, first } = welcome;
    let Place {
        mut reader,
        mut writer,
        role,
    } = place;
    let end = visit(
        rt,
        alloc,
        link,
        &id,
        first.as_slice(),
        &mut reader,
        &mut writer,
        bell,
    );
    let place = Place {
        reader,
        writer,
        role,
    };
    WsRun {
        end,
        place: Some((id, place)),
    }
}

/// Serves a viewer by messages. The first is the form of a connection, for which the door is asked as `open_form` asks
/// it; it is answered by `ready` with the session's ID and what the viewer is given first, or by `error`, with the status
/// 768 for a form that can't be read and the handshake's for another refusal. Each later message has whole instructions,
/// at most 4,096: their acts are done, those that ask for a size by a change of size, and the answer is the text of one
/// read, which found all that they wrote. Acts that a closed session refuses are passed over. A read that delivers the
/// closing instruction is the last; `disconnect` ends without an answer. Whatever the end, the viewer has then left, and
/// its place is for the caller to give back to the door (this project's own).
pub fn ws_serve<R, M, D, B>(rt: &R, alloc: Global, link: &mut M, door: &mut D, bell: &B) -> WsRun
where
    R: Threads + Wait + Copy + Send + 'static,
    M: Messages,
    D: Door<Place = Place>,
    B: Bell,
    ensures served { Exchanges (M.left link.old) (M.left link.new) (M.sent link.old) (M.sent link.new) (λ received sent. HasServed result (M.left link.new) received sent) }
    ensures asked { AsksDoor D.id_of (Grants (D.begun door.new) (D.joined door.new)) (D.view door.old) (D.view door.new) (M.left link.old) result }
    ensures faults { CountsFault (result.end ≡ ends.LinkFault) (M.faults link.old) (M.faults link.new) }
{
    match open(rt, alloc, link, door) {
        Ok(welcome) => admit(rt, alloc, link, welcome, bell),
        Err(end) => WsRun { end, place: None },
    }
}
