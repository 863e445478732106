//! What the session has for the Telnet host goes out.

ghost use Rattle.std.specs.Prelude.{◌≡◌, ◌<◌, ℕ, List, Err, length};
ghost use Rattle.gate_outside.specs.Edge.{CountsFault, gained};
ghost use Rattle.session_link.specs.Senders.{HasHalted, HasSent, SenderRun};
ghost use Rattle.session_link.specs.declared.ends.SenderEnd.TheVariants as ends;

use crate::SenderEnd;
use crate::closing::shut_after;
use gate_outside::{Bell, Failed, Sink, ring_after_take, write_all};
use shared_desk::SenderPass;
use std::sync::Wait;

/// How many bytes are taken in one turn.
const PIECE: usize = 4096;

/// Writes what the session has for its host, in order, and rings after each take. It ends once the session is
/// closed and all was taken. At a write that fails it closes the session with `LinkFault`. At each end it
/// finishes the sink. It takes no memory (this project's own).
pub fn sender<R: Wait, K: Sink, B: Bell>(
    rt: &R,
    pass: &mut SenderPass,
    sink: &mut K,
    bell: &B,
) -> SenderEnd
    ensures session { pass.new.session ≡ pass.old.session }
    ensures ran { (written : List ℕ) × (K.written sink.new ≡ gained (K.written sink.old) written) × SenderRun pass.old.view pass.new.view written result }
    ensures faults { CountsFault (result ≡ ends.WriteFault) (K.faults sink.old) (K.faults sink.new) }
{
    let end = send_all(rt, pass, sink, bell);
    shut_after(rt, pass, bell, end);
    sink.finish();
    end
}

// Writes what the session has, up to the end, at which it doesn't close it.
fn send_all<R: Wait, K: Sink, B: Bell>(
    rt: &R,
    pass: &mut SenderPass,
    sink: &mut K,
    bell: &B,
) -> SenderEnd
    ensures session { pass.new.session ≡ pass.old.session }
    ensures halted { (written : List ℕ) × (K.written sink.new ≡ gained (K.written sink.old) written) × HasHalted pass.old.view pass.new.view written result }
    ensures faults { CountsFault (result ≡ ends.WriteFault) (K.faults sink.old) (K.faults sink.new) }
{
    let mut piece = [0u8; PIECE];
    for _ in rt.forever() {
        let rings = pass.spots().sending().rings();
        match send_next(rt, pass, sink, bell, &mut piece) {
            Ok(true) => {}
            Ok(false) => bell.wait_at(rt, pass.spots().sending(), rings),
            Err(end) => return end,
        }
    }
    unreachable!()
}

// Takes once, and writes what that gave. Whether there was something.
fn send_next<R: Wait, K: Sink, B: Bell>(
    rt: &R,
    pass: &mut SenderPass,
    sink: &mut K,
    bell: &B,
    piece: &mut [u8],
) -> Result<bool, SenderEnd>
    requires { 0 < length piece.old }
    ensures room { length piece.new ≡ length piece.old }
    ensures session { pass.new.session ≡ pass.old.session }
    ensures sent { (written : List ℕ) × (K.written sink.new ≡ gained (K.written sink.old) written) × HasSent pass.old.view pass.new.view written result }
    ensures faults { CountsFault (result ≡ Err ends.WriteFault) (K.faults sink.old) (K.faults sink.new) }
{
    let taken = pass.take(rt, piece);
    let (count, closed) = (taken.count, taken.closed);
    if count == 0 {
        return if closed {
            Err(SenderEnd::Ended)
        } else {
            Ok(false)
        };
    }
    ring_after_take(bell, pass.spots());
    match write_all(sink, &piece[..count]) {
        Ok(()) => Ok(true),
        Err(Failed) => Err(SenderEnd::WriteFault),
    }
}
