//! What a viewer is given goes out to it.

ghost use Rattle.std.specs.Prelude.{◌≡◌, ℕ, List, Err};
ghost use Rattle.gate_model.specs.session.Delivered.{delivered};
ghost use Rattle.gate_model.specs.text.Text.{texts};
ghost use Rattle.gate_outside.specs.Edge.{CountsFault, gained};
ghost use Rattle.shared_desk.specs.Members.{Stays};
ghost use Rattle.user_serve.specs.Outlets.{OutletRun, StepRun, step_of};
ghost use Rattle.user_serve.specs.declared.ends.OutletEnd.TheVariants as ends;

use crate::OutletEnd;
use gate_model::Bytes;
use gate_outside::{Bell, Failed, Sink, wait_for_drawing, wait_for_news, write_all};
use shared_desk::{ReadAnswer, ReadRefusal, ReaderPass};
use std::alloc::Global;
use std::sync::Wait;

/// Writes what the viewer is given, as it is given: first `first`, the text of what it was given so far, and then
/// what its reads give. Where a read gives nothing, or the viewer is to catch up first, it waits for the bell and
/// reads again; where a read gave a whole picture, it waits until that is acknowledged, or a second. At each end it
/// finishes the sink (this project's own).
pub fn outlet<R: Wait, K: Sink, B: Bell>(
    rt: &R,
    alloc: Global,
    pass: &mut ReaderPass,
    first: &Bytes,
    sink: &mut K,
    bell: &B,
) -> OutletEnd
    requires fresh { first.now ≡ texts (delivered pass.old.view.seen pass.old.viewer) }
    ensures stays { Stays pass.old pass.new }
    ensures ran { (written : List ℕ) × (K.written sink.new ≡ gained (K.written sink.old) written) × OutletRun pass.old.viewer pass.old.view pass.new.view written result }
    ensures faults { CountsFault (result ≡ ends.WriteFault) (K.faults sink.old) (K.faults sink.new) }
{
    let end = show_all(rt, alloc, pass, first, sink, bell);
    sink.finish();
    end
}

// Writes what the viewer is given, up to the end.
fn show_all<R: Wait, K: Sink, B: Bell>(
    rt: &R,
    alloc: Global,
    pass: &mut ReaderPass,
    first: &Bytes,
    sink: &mut K,
    bell: &B,
) -> OutletEnd
    requires fresh { first.now ≡ texts (delivered pass.old.view.seen pass.old.viewer) }
    ensures stays { Stays pass.old pass.new }
    ensures ran { (written : List ℕ) × (K.written sink.new ≡ gained (K.written sink.old) written) × OutletRun pass.old.viewer pass.old.view pass.new.view written result }
    ensures faults { CountsFault (result ≡ ends.WriteFault) (K.faults sink.old) (K.faults sink.new) }
{
    match write_all(sink, first.as_slice()) {
        Ok(()) => {}
        Err(Failed) => {
            pass.history_is_sound();
            return OutletEnd::WriteFault;
        }
    }
    let mut text = Vec::new(alloc);
    let mut lag = Lag::None;
    for _ in rt.forever() {
        let rings = pass.spots().rings(pass.viewer());
        match show_next(rt, pass, &mut text, sink, &mut lag) {
            Ok(Step::Gave) => pause(rt, bell, pass, lag),
            Ok(Step::Waits) => {
                wait_for_news(rt, bell, pass.spots(), pass.viewer(), is_held(lag), rings)
            }
            Err(end) => return end,
        }
    }
    unreachable!()
}

// What one read came to.
#[derive(Clone, Copy)]
pub(crate) enum Step {
    Gave,
    Waits,
}

// How far a viewer is behind what the session shows.
#[derive(Clone, Copy)]
enum Lag {
    None,
    // It is to catch up before it is given more.
    Held,
    // It was so far behind that it was given a whole picture, of this stamp.
    Anew(u64),
}

// Reads once, and writes what that gave. `text` is where it is put, and `lag` tells how far the viewer is behind.
fn show_next<R: Wait, K: Sink>(
    rt: &R,
    pass: &mut ReaderPass,
    text: &mut Vec<u8>,
    sink: &mut K,
    lag: &mut Lag,
) -> Result<Step, OutletEnd>
    ensures stays { Stays pass.old pass.new }
    ensures step { (written : List ℕ) × (K.written sink.new ≡ gained (K.written sink.old) written) × StepRun pass.old.viewer pass.old.view pass.new.view written result }
    ensures faults { CountsFault (result ≡ Err ends.WriteFault) (K.faults sink.old) (K.faults sink.new) }
{
    // So what was seen before the read is sound, and the viewer has joined.
    pass.history_is_sound();
    text.clear();
    let answer = pass.read(rt, text);
    *lag = lag_of(&answer);
    match write_all(sink, text.as_slice()) {
        Ok(()) => step_of(answer),
        Err(Failed) => Err(OutletEnd::WriteFault),
    }
}

fn lag_of(answer: &Result<ReadAnswer, ReadRefusal>) -> Lag {
    match answer {
        Ok(ReadAnswer::Hold { .. }) => Lag::Held,
        Ok(ReadAnswer::Fresh { stamp, .. }) => Lag::Anew(*stamp),
        Ok(ReadAnswer::Frames { .. } | ReadAnswer::Empty | ReadAnswer::Ended) | Err(_) => Lag::None,
    }
}

// Whether the viewer is to catch up first.
fn is_held(lag: Lag) -> bool {
    matches!(lag, Lag::Held)
}

// Lets a viewer that was given a whole picture draw it, before it is given the next.
fn pause<R: Wait, B: Bell>(rt: &R, bell: &B, pass: &ReaderPass, lag: Lag) {
    if let Lag::Anew(stamp) = lag {
        wait_for_drawing(rt, bell, pass.spots(), pass.viewer(), stamp);
    }
}

// Whether the outlet goes on.
fn step_of(answer: Result<ReadAnswer, ReadRefusal>) -> Result<Step, OutletEnd>
    ensures { result ≡ step_of answer }
{
    match answer {
        Ok(ReadAnswer::Frames { closed: true, .. } | ReadAnswer::Fresh { closed: true, .. }) => {
            Err(OutletEnd::Ended)
        }
        Ok(ReadAnswer::Frames { .. } | ReadAnswer::Fresh { .. }) => Ok(Step::Gave),
        Ok(ReadAnswer::Ended) => Err(OutletEnd::Ended),
        Ok(ReadAnswer::Empty | ReadAnswer::Hold { .. }) => Ok(Step::Waits),
        Err(ReadRefusal::NoViewer) => Err(OutletEnd::Left),
        Err(ReadRefusal::Worn { .. }) => Err(OutletEnd::Worn),
        Err(ReadRefusal::NoMemory) => Err(OutletEnd::NoMemory),
    }
}
