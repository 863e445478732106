//! What a viewer sends goes into its session.

ghost use Rattle.std.specs.Prelude.{◌≡◌, ◌<◌, ◌≤◌, ◌++◌, ℕ, List, Err, Some, drop, length};
ghost use Rattle.gate_outside.specs.Edge.{CountsFault, came};
ghost use Rattle.shared_desk.specs.Members.{Stays};
ghost use Rattle.user_serve.specs.Intakes.{HasHeard, HasRead, HasTaken, HasWritten, HearStop, IntakeRun, Leaves, end_of, is_disconnect};
ghost use Rattle.user_serve.specs.declared.ends.IntakeEnd.TheVariants as ends;

use crate::IntakeEnd;
use gate_model::Act;
use gate_outside::{Bell, Failed, Source};
use guac_framing::{Next, next_instruction};
use guac_instr::read_client;
use shared_desk::{WriteRefusal, WriterPass};
use std::alloc::Global;
use std::sync::Wait;
use viewer_acts::{leave, write_acts};

/// How many bytes are read at once.
const PIECE: usize = 4096;

/// Writes the acts of the instructions in `rest` and of those that the source gives, one write for each, or for one
/// that asks for a size a change of size, and rings after each. It ends at `disconnect`, at the source's end, at a byte
/// that begins no instruction, and where a read or a write is refused. Whatever its end, the viewer has then left. `rest` is left holding the bytes
/// behind the last instruction that was read (this project's own).
pub fn intake<R: Wait, S: Source, B: Bell>(
    rt: &R,
    alloc: Global,
    pass: &mut WriterPass,
    source: &mut S,
    rest: &mut Vec<u8>,
    bell: &B,
) -> IntakeEnd
    ensures stays { Stays pass.old pass.new }
    ensures ran { (read : List ℕ) × (S.left source.old ≡ came read (S.left source.new)) × IntakeRun pass.old.viewer pass.old.view pass.new.view (rest.old.items ++ read) rest.new.items (S.left source.new) result }
    ensures faults { CountsFault (result ≡ ends.ReadFault) (S.faults source.old) (S.faults source.new) }
{
    let end = hear_all(rt, alloc, pass, source, rest, bell);
    leave_after(rt, pass, bell, end);
    end
}

// Leaves, but where the viewer had left, and rings.
fn leave_after<R: Wait, B: Bell>(rt: &R, pass: &mut WriterPass, bell: &B, end: IntakeEnd)
    ensures stays { Stays pass.old pass.new }
    ensures leaves { Leaves end pass.old.viewer pass.old.view pass.new.view }
{
    match end {
        IntakeEnd::Left => {}
        IntakeEnd::Disconnected
        | IntakeEnd::ReadFault
        | IntakeEnd::Bad(_)
        | IntakeEnd::Closed(_)
        | IntakeEnd::Worn
        | IntakeEnd::NoMemory => leave(rt, pass, bell),
    }
}

// Hears the viewer to the end, at which it doesn't leave.
fn hear_all<R: Wait, S: Source, B: Bell>(
    rt: &R,
    alloc: Global,
    pass: &mut WriterPass,
    source: &mut S,
    rest: &mut Vec<u8>,
    bell: &B,
) -> IntakeEnd
    ensures stays { Stays pass.old pass.new }
    ensures stopped { (read : List ℕ) × (S.left source.old ≡ came read (S.left source.new)) × HearStop pass.old.viewer pass.old.view pass.new.view (rest.old.items ++ read) rest.new.items (S.left source.new) result }
    ensures faults { CountsFault (result ≡ ends.ReadFault) (S.faults source.old) (S.faults source.new) }
{
    let mut piece = [0u8; PIECE];
    let mut at = 0;
    for _ in rt.forever() {
        match hear_next(rt, alloc, pass, source, rest, &mut at, &mut piece, bell) {
            Ok(()) => {}
            Err(end) => {
                cut(rest, at);
                return end;
            }
        }
    }
    unreachable!()
}

// Takes up the instruction at the front of the bytes from `at` on, or reads more of them.
fn hear_next<R: Wait, S: Source, B: Bell>(
    rt: &R,
    alloc: Global,
    pass: &mut WriterPass,
    source: &mut S,
    rest: &mut Vec<u8>,
    at: &mut usize,
    piece: &mut [u8],
    bell: &B,
) -> Result<(), IntakeEnd>
    requires within { at.old ≤ length rest.old.items }
    requires room { 0 < length piece.old }
    ensures within { at.new ≤ length rest.new.items }
    ensures room { length piece.new ≡ length piece.old }
    ensures stays { Stays pass.old pass.new }
    ensures heard { HasHeard pass.old.viewer pass.old.view pass.new.view (S.left source.old) (S.left source.new) (drop at.old rest.old.items) (drop at.new rest.new.items) result }
    ensures faults { CountsFault (result ≡ Err ends.ReadFault) (S.faults source.old) (S.faults source.new) }
{
    match next_instruction(unread(rest, *at)) {
        Next::Whole(frame, count) => {
            let act = read_client(&frame);
            *at += count;
            take_up(rt, alloc, pass, act, bell)
        }
        Next::More => read_more(source, rest, at, piece),
        Next::Bad(place) => Err(IntakeEnd::Bad(place)),
    }
}

// The bytes from `at` on.
fn unread(rest: &Vec<u8>, at: usize) -> &[u8]
    requires { at ≤ length rest.now.items }
    ensures { result.now ≡ drop at rest.now.items }
{
    &rest[at..]
}

// Lets go of the bytes before `at`.
fn cut(rest: &mut Vec<u8>, at: usize)
    requires { at ≤ length rest.old.items }
    ensures { rest.new.items ≡ drop at rest.old.items }
{
    rest.drain(..at);
}

// Reads once, behind the bytes from `at` on, which become the first.
fn read_more<S: Source>(
    source: &mut S,
    rest: &mut Vec<u8>,
    at: &mut usize,
    piece: &mut [u8],
) -> Result<(), IntakeEnd>
    requires within { at.old ≤ length rest.old.items }
    requires room { 0 < length piece.old }
    ensures at { at.new ≡ 0 }
    ensures room { length piece.new ≡ length piece.old }
    ensures read { HasRead (S.left source.old) (S.left source.new) (drop at.old rest.old.items) rest.new.items result }
    ensures faults { CountsFault (result ≡ Err ends.ReadFault) (S.faults source.old) (S.faults source.new) }
{
    cut(rest, *at);
    *at = 0;
    if rest.reserve(piece.len()).is_err() {
        return Err(IntakeEnd::NoMemory);
    }
    match source.read(piece) {
        Ok(count) => {
            rest.extend_from_slice(&piece[..count]).unwrap();
            if count == 0 {
                Err(IntakeEnd::Disconnected)
            } else {
                Ok(())
            }
        }
        Err(Failed) => Err(IntakeEnd::ReadFault),
    }
}

// Does what the instruction asks, if it has an act.
fn take_up<R: Wait, B: Bell>(
    rt: &R,
    alloc: Global,
    pass: &mut WriterPass,
    act: Option<Act>,
    bell: &B,
) -> Result<(), IntakeEnd>
    ensures stays { Stays pass.old pass.new }
    ensures taken { HasTaken pass.old.viewer act pass.old.view pass.new.view result }
{
    match act {
        None => Ok(()),
        Some(act) => {
            if is_end(act) {
                Err(IntakeEnd::Disconnected)
            } else {
                write(rt, alloc, pass, act, bell)
            }
        }
    }
}

// Whether the viewer asks for an end.
fn is_end(act: Act) -> bool
    ensures { result ≡ is_disconnect (Some act) }
{
    match act {
        Act::Disconnect => true,
        Act::Key { .. } | Act::Mouse { .. } | Act::Sync { .. } | Act::Size { .. } | Act::Nop => {
            false
        }
    }
}

// Does what one act asks.
fn write<R: Wait, B: Bell>(
    rt: &R,
    alloc: Global,
    pass: &mut WriterPass,
    act: Act,
    bell: &B,
) -> Result<(), IntakeEnd>
    ensures stays { Stays pass.old pass.new }
    ensures wrote { HasWritten pass.old.viewer act pass.old.view pass.new.view result }
{
    match write_acts(rt, alloc, pass, &[act], bell) {
        Ok(()) => Ok(()),
        Err(refusal) => {
            // So where the viewer has left, its Leave stands in what the pass has seen.
            pass.history_is_sound();
            Err(end_of(refusal))
        }
    }
}

// The end at a call that was refused.
fn end_of(refusal: WriteRefusal) -> IntakeEnd
    ensures { result ≡ end_of refusal }
{
    match refusal {
        WriteRefusal::NoViewer => IntakeEnd::Left,
        WriteRefusal::Closed(cause) => IntakeEnd::Closed(cause),
        WriteRefusal::Worn { .. } => IntakeEnd::Worn,
        WriteRefusal::NoMemory => IntakeEnd::NoMemory,
    }
}
