//! What the Telnet host sends goes into the session.

ghost use Rattle.std.specs.Prelude.{◌≡◌, ◌<◌, ◌≤◌, ℕ, List, Err, IfErr, length};
ghost use Rattle.gate_outside.specs.Edge.{AtEnd, CountsFault, came};
ghost use Rattle.gate_model.specs.session.Calls.{IsPiece};
ghost use Rattle.session_link.specs.Pumps.{HasFed, HasStopped, IsRefusal, PumpRun};
ghost use Rattle.gate_model.specs.Limits.{most_piece};
ghost use Rattle.session_link.specs.declared.ends.PumpEnd.TheVariants as ends;

use crate::PumpEnd;
use crate::closing::close_after;
use gate_outside::{Bell, Clock, Failed, Source, ring_after_feed, wait_for_room};
use shared_desk::{FeedRefusal, LinkPass};
use std::alloc::Global;
use std::sync::Wait;

/// How many bytes are read at once, and fed in one turn.
const PIECE: usize = 4096;

/// Feeds the session what the source gives, piece by piece, and rings after each. While more than 1,114,112 bytes wait
/// for the host of an open session it reads no more, until fewer than half do. At the source's end, at a
/// read that fails and where the session is worn it closes the session, with `ServerEnd`, `LinkFault` and
/// `Worn`. At want of memory the session stays open (this project's own).
pub fn pump<R: Wait, S: Source, C: Clock, B: Bell>(
    rt: &R,
    alloc: Global,
    pass: &mut LinkPass,
    source: &mut S,
    clock: &mut C,
    bell: &B,
) -> PumpEnd
    ensures session { pass.new.session ≡ pass.old.session }
    ensures ran { (read : List ℕ) × (S.left source.old ≡ came read (S.left source.new)) × PumpRun pass.old.view pass.new.view read result }
    ensures ended { result ≡ ends.LinkEnded → AtEnd (S.left source.new) }
    ensures faults { CountsFault (result ≡ ends.ReadFault) (S.faults source.old) (S.faults source.new) }
    ensures helper { C.helper clock.new ≡ C.helper clock.old }
{
    let end = feed_all(rt, alloc, pass, source, clock, bell);
    close_after(rt, pass, bell, end);
    end
}

// Feeds the session piece by piece, up to the end, at which it doesn't close it.
fn feed_all<R: Wait, S: Source, C: Clock, B: Bell>(
    rt: &R,
    alloc: Global,
    pass: &mut LinkPass,
    source: &mut S,
    clock: &mut C,
    bell: &B,
) -> PumpEnd
    ensures session { pass.new.session ≡ pass.old.session }
    ensures stopped { (read : List ℕ) × (S.left source.old ≡ came read (S.left source.new)) × HasStopped pass.old.view pass.new.view read result }
    ensures ended { result ≡ ends.LinkEnded → AtEnd (S.left source.new) }
    ensures faults { CountsFault (result ≡ ends.ReadFault) (S.faults source.old) (S.faults source.new) }
    ensures helper { C.helper clock.new ≡ C.helper clock.old }
{
    let mut piece = [0u8; PIECE];
    for _ in rt.forever() {
        match feed_next(rt, alloc, pass, source, clock, &mut piece) {
            Ok(()) => {
                ring_after_feed(bell, pass.spots());
                wait_for_room(rt, bell, pass.spots());
            }
            Err(end) => return end,
        }
    }
    unreachable!()
}

// Reads once, and feeds what came.
fn feed_next<R: Wait, S: Source, C: Clock>(
    rt: &R,
    alloc: Global,
    pass: &mut LinkPass,
    source: &mut S,
    clock: &mut C,
    piece: &mut [u8],
) -> Result<(), PumpEnd>
    requires some { 0 < length piece.old }
    requires few { length piece.old ≤ most_piece }
    ensures room { length piece.new ≡ length piece.old }
    ensures session { pass.new.session ≡ pass.old.session }
    ensures step { (read : List ℕ) × (S.left source.old ≡ came read (S.left source.new)) × HasFed pass.old.view pass.new.view read result }
    ensures ended { IfErr result (λ end. end ≡ ends.LinkEnded → AtEnd (S.left source.new)) }
    ensures faults { CountsFault (result ≡ Err ends.ReadFault) (S.faults source.old) (S.faults source.new) }
    ensures helper { C.helper clock.new ≡ C.helper clock.old }
{
    let count = match source.read(piece) {
        Ok(count) => count,
        Err(Failed) => return Err(PumpEnd::ReadFault),
    };
    if count == 0 {
        return Err(PumpEnd::LinkEnded);
    }
    let now = clock.now();
    feed_piece(rt, alloc, pass, &piece[..count], now)
}

// Feeds one piece.
fn feed_piece<R: Wait>(
    rt: &R,
    alloc: Global,
    pass: &mut LinkPass,
    piece: &[u8],
    now: u64,
) -> Result<(), PumpEnd>
    requires { IsPiece piece.now }
    ensures session { pass.new.session ≡ pass.old.session }
    ensures step { HasFed pass.old.view pass.new.view piece.now result }
    ensures kind { IfErr result IsRefusal }
{
    match pass.feed(rt, alloc, piece, now) {
        Ok(_) => Ok(()),
        Err(FeedRefusal::Closed(cause)) => Err(PumpEnd::Closed(cause)),
        Err(FeedRefusal::Worn { .. }) => Err(PumpEnd::Worn),
        Err(FeedRefusal::NoMemory) => Err(PumpEnd::NoMemory),
    }
}
