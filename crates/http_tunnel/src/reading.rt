//! What the viewer of a tunnel is given.

ghost use Rattle.std.specs.Prelude.{◌≡◌, ◌⊎◌, ◌++◌, ℕ, List, Ok, Err};
ghost use Rattle.shared_desk.specs.Members.{Stays};
ghost use Rattle.http_tunnel.specs.Reads.{HasLooked, HasRead, end_of, mark_of, refusal_of, second};
ghost use Rattle.http_tunnel.specs.declared.reading.TunnelRefusal.TheVariants.{NoMemory as no_memory};

use desk_core::{ReadAnswer, ReadRefusal};
use gate_outside::{Bell, wait_for_news};
use shared_desk::ReaderPass;
use std::sync::Wait;
use wake_spot::Rings;

/// How a read of a tunnel ended.
#[derive(Clone, Copy, Debug, PartialEq, Eq)]
pub enum TunnelEnd {
    /// More may come.
    Open,
    /// The closing instruction was delivered.
    Ended,
}

/// Why a read of a tunnel was refused.
#[derive(Clone, Copy, Debug, PartialEq, Eq)]
pub enum TunnelRefusal {
    /// The viewer never joined or has left.
    NoViewer,
    /// The session has as many entries as it may, so many.
    Worn { entries: u64 },
    /// Want of memory.
    NoMemory,
}

impl From<ReadRefusal> for TunnelRefusal {
    fn from(refused: ReadRefusal) -> TunnelRefusal
        ensures { result ≡ refusal_of refused }
    {
        match refused {
            ReadRefusal::NoViewer => TunnelRefusal::NoViewer,
            ReadRefusal::Worn { entries } => TunnelRefusal::Worn { entries },
            ReadRefusal::NoMemory => TunnelRefusal::NoMemory,
        }
    }
}

// How a read ended that gave something, or None where nothing was there.
fn end_of(answer: ReadAnswer) -> Option<TunnelEnd>
    ensures { result ≡ end_of answer }
{
    match answer {
        ReadAnswer::Frames { closed, .. } | ReadAnswer::Fresh { closed, .. } => {
            if closed {
                Some(TunnelEnd::Ended)
            } else {
                Some(TunnelEnd::Open)
            }
        }
        ReadAnswer::Ended => Some(TunnelEnd::Ended),
        ReadAnswer::Empty | ReadAnswer::Hold { .. } => None,
    }
}

// Whether the viewer is to catch up first.
fn is_held(answer: ReadAnswer) -> bool {
    matches!(&answer, ReadAnswer::Hold { .. })
}

// Reads once. `held` tells whether the viewer is to catch up first.
fn look<R: Wait>(
    rt: &R,
    pass: &mut ReaderPass,
    into: &mut Vec<u8>,
    held: &mut bool,
) -> Result<Option<TunnelEnd>, TunnelRefusal>
    ensures stays { Stays pass.old pass.new }
    ensures looked { (text : List ℕ) × (into.new.items ≡ into.old.items ++ text) × HasLooked pass.old.viewer pass.old.view pass.new.view text result }
{
    match pass.read(rt, into) {
        Ok(answer) => {
            *held = is_held(answer);
            Ok(end_of(answer))
        }
        Err(refused) => Err(TunnelRefusal::from(refused)),
    }
}

/// Whether a read that finds nothing waits for the bell before it reads once more.
#[derive(Clone, Copy)]
pub(crate) enum Waits {
    Once,
    Never,
}

// Waits for news of the viewer, where that is wanted.
fn wait<R: Wait, B: Bell>(
    rt: &R,
    pass: &ReaderPass,
    bell: &B,
    held: bool,
    rings: Rings,
    waits: Waits,
) {
    match waits {
        Waits::Once => wait_for_news(rt, bell, pass.spots(), pass.viewer(), held, rings),
        Waits::Never => {}
    }
}

// Reads, and where nothing is there once more.
fn look_twice<R: Wait, B: Bell>(
    rt: &R,
    pass: &mut ReaderPass,
    bell: &B,
    into: &mut Vec<u8>,
    waits: Waits,
) -> Result<TunnelEnd, TunnelRefusal>
    ensures stays { Stays pass.old pass.new }
    ensures read { (text : List ℕ) × (into.new.items ≡ into.old.items ++ text) × HasRead pass.old.viewer pass.old.view pass.new.view text result }
{
    let mut held = false;
    let rings = pass.spots().rings(pass.viewer());
    match look(rt, pass, into, &mut held) {
        Ok(Some(end)) => Ok(end),
        Ok(None) => {
            wait(rt, pass, bell, held, rings, waits);
            settled(look(rt, pass, into, &mut held))
        }
        Err(refused) => Err(refused),
    }
}

// How a second look ends a read.
fn settled(looked: Result<Option<TunnelEnd>, TunnelRefusal>) -> Result<TunnelEnd, TunnelRefusal>
    ensures { result ≡ second looked }
{
    match looked {
        Ok(Some(end)) => Ok(end),
        Ok(None) => Ok(TunnelEnd::Open),
        Err(refused) => Err(refused),
    }
}

// Puts the mark of the end behind a text, if there is memory.
fn mark(into: &mut Vec<u8>, end: TunnelEnd) -> Result<TunnelEnd, TunnelRefusal>
    ensures marked { into.new.items ≡ into.old.items ++ mark_of result }
    ensures kind { (result ≡ Ok end) ⊎ (result ≡ Err no_memory) }
{
    match into.extend_from_slice(b"0.;") {
        Ok(()) => Ok(end),
        Err(_) => Err(TunnelRefusal::NoMemory),
    }
}

/// The same as `tunnel_read`, but that it waits only where that is wanted.
pub(crate) fn read_within<R: Wait, B: Bell>(
    rt: &R,
    pass: &mut ReaderPass,
    bell: &B,
    into: &mut Vec<u8>,
    waits: Waits,
) -> Result<TunnelEnd, TunnelRefusal>
    ensures stays { Stays pass.old pass.new }
    ensures read { (text : List ℕ) × (into.new.items ≡ into.old.items ++ (text ++ mark_of result)) × HasRead pass.old.viewer pass.old.view pass.new.view text result }
{
    match look_twice(rt, pass, bell, into, waits) {
        Ok(end) => mark(into, end),
        Err(refused) => Err(refused),
    }
}

/// Reads for the viewer, and appends what it was given and the mark of the end, `0.;`. Where nothing is there it waits
/// for the bell once and reads once more (this project's own rule). Ended comes where the viewer was given the closing
/// instruction, by this read or before. Refused, `into` has what was delivered, without the mark: want of memory alone
/// comes with anything.
pub fn tunnel_read<R: Wait, B: Bell>(
    rt: &R,
    pass: &mut ReaderPass,
    bell: &B,
    into: &mut Vec<u8>,
) -> Result<TunnelEnd, TunnelRefusal>
    ensures stays { Stays pass.old pass.new }
    ensures read { (text : List ℕ) × (into.new.items ≡ into.old.items ++ (text ++ mark_of result)) × HasRead pass.old.viewer pass.old.view pass.new.view text result }
{
    read_within(rt, pass, bell, into, Waits::Once)
}
