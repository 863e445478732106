//! Acts go into a session.

ghost use Rattle.std.specs.Prelude.{◌≡◌, ◌≤◌, IfOk, length};
ghost use Rattle.gate_model.specs.Limits.{most_acts};
ghost use Rattle.shared_desk.specs.Members.{Stays};
ghost use Rattle.viewer_acts.specs.Parts.{IsRun, Others, Sized};
ghost use Rattle.viewer_acts.specs.Doing.{HasWritten, WritesOne, WritesPart, passed_over};

use crate::parts::{run_length, size_in};
use gate_model::Act;
use gate_outside::{Bell, ring_after_feed, ring_after_write};
use guac_handshake::{columns_of, rows_of};
use shared_desk::{ResizeRefusal, WriteRefusal, WriterPass};
use std::alloc::Global;
use std::sync::Wait;

/// Writes the acts of a viewer, of which there may be 4,096: those between two that ask for a size at once, and each
/// of those by a change of size, of as many cells as the handshake would make of its pixels. It rings after each. A
/// change that is refused as Denied or Same is passed over; at any other refusal it stops, and what was done before
/// stays (this project's own).
pub fn write_acts<R: Wait, B: Bell>(
    rt: &R,
    alloc: Global,
    pass: &mut WriterPass,
    acts: &[Act],
    bell: &B,
) -> Result<(), WriteRefusal>
    requires { length acts.now ≤ most_acts }
    ensures stays { Stays pass.old pass.new }
    ensures wrote { HasWritten pass.old.viewer pass.old.view pass.new.view acts.now result }
{
    let mut at = 0;
    while at < acts.len() {
        at += write_part(rt, alloc, pass, &acts[at..], bell)?;
    }
    Ok(())
}

// Does the first part of acts, and says how many acts it has.
fn write_part<R: Wait, B: Bell>(
    rt: &R,
    alloc: Global,
    pass: &mut WriterPass,
    acts: &[Act],
    bell: &B,
) -> Result<usize, WriteRefusal>
    requires some { 1 ≤ length acts.now }
    requires few { length acts.now ≤ most_acts }
    ensures stays { Stays pass.old pass.new }
    ensures count { IfOk result (λ count. (1 ≤ count) × (count ≤ length acts.now)) }
    ensures part { WritesPart pass.old.viewer pass.old.view pass.new.view acts.now result }
{
    match size_in(acts[0]) {
        Some(size) => {
            resize(rt, alloc, pass, size, bell)?;
            Ok(1)
        }
        None => {
            let count = run_length(acts);
            write(rt, alloc, pass, &acts[..count], bell)?;
            Ok(count)
        }
    }
}

// Writes acts at once, and rings.
fn write<R: Wait, B: Bell>(
    rt: &R,
    alloc: Global,
    pass: &mut WriterPass,
    acts: &[Act],
    bell: &B,
) -> Result<(), WriteRefusal>
    requires { length acts.now ≤ most_acts }
    ensures stays { Stays pass.old pass.new }
    ensures wrote { WritesOne pass.old.viewer pass.old.view pass.new.view (Others acts.now) result }
{
    match pass.write(rt, alloc, acts) {
        Ok(_) => {
            ring_after_write(bell, pass.spots(), pass.viewer(), acts);
            Ok(())
        }
        Err(refusal) => Err(refusal),
    }
}

// Changes the size, where the viewer may and it is another, and rings: it draws a frame, as a feed does.
fn resize<R: Wait, B: Bell>(
    rt: &R,
    alloc: Global,
    pass: &mut WriterPass,
    size: (u32, u32),
    bell: &B,
) -> Result<(), WriteRefusal>
    ensures stays { Stays pass.old pass.new }
    ensures sized { WritesOne pass.old.viewer pass.old.view pass.new.view (Sized size) result }
{
    match pass.resize(rt, alloc, columns_of(Some(size)), rows_of(Some(size))) {
        Ok(_) => {
            ring_after_feed(bell, pass.spots());
            Ok(())
        }
        Err(refusal) => passed_over(refusal),
    }
}

// Whether a change of size that was refused is passed over.
fn passed_over(refusal: ResizeRefusal) -> Result<(), WriteRefusal>
    ensures { result ≡ passed_over refusal }
{
    match refusal {
        ResizeRefusal::Denied | ResizeRefusal::Same => Ok(()),
        ResizeRefusal::NoViewer => Err(WriteRefusal::NoViewer),
        ResizeRefusal::Closed(cause) => Err(WriteRefusal::Closed(cause)),
        ResizeRefusal::Worn { entries } => Err(WriteRefusal::Worn { entries }),
        ResizeRefusal::NoMemory => Err(WriteRefusal::NoMemory),
    }
}
