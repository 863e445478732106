//! The words `clip`: the input is copied, and what is pasted in it is typed as keys.

ghost use Rattle.std.specs.Prelude.{◌≡◌, ◌≤◌, ◌<◌, ℕ, List, [], false, true, length, vec_len, IfOk, OnErr, OnOk};
ghost use Rattle.clip_stream.specs.Pasted.{pasted};
ghost use Rattle.clip_stream.specs.Sources.{HasRoom, IsOver, has_ended, rest_of};
ghost use Rattle.gate_outside.specs.Edge.{Rose};
ghost use Rattle.gate_script.specs.Clipping.{ClipOutcome, EndsWith, HasWritten, IsClipStatus};
ghost use Rattle.gate_script.specs.PlayOutcomes.{ReadAndTold};

use clip_stream::Paster;
use gate_model::NoMemory;
use gate_outside::{Failed, Sink, Source, write_all};
use std::alloc::Global;

/// How many bytes are read at once, and are given at once at most.
const PIECE_SIZE: usize = 65_536;

/// The most bytes of the input that are copied (this project's own).
const MOST_BYTES: usize = 67_108_864;

/// Copies the input to its end, or its first 67,108,864 bytes, and answers the status: 0, or 11 where it has more.
pub(crate) fn clip<S: Source, A: Sink>(alloc: Global, source: &mut S, answers: &mut A) -> u8
    ensures outcome { ReadAndTold (S.left source.old) (S.left source.new) (A.written answers.old) (A.written answers.new) (λ bytes a. ClipOutcome result (S.left source.new) bytes a []) }
    ensures only { IsClipStatus result }
    ensures read_fault { result ≡ 4 → Rose (S.faults source.old) (S.faults source.new) }
    ensures write_fault { result ≡ 5 → Rose (A.faults answers.old) (A.faults answers.new) }
    ensures later_source { S.faults source.old ≤ S.faults source.new }
    ensures later_answers { A.faults answers.old ≤ A.faults answers.new }
{
    match Room::new(alloc) {
        Ok(room) => {
            let Room {
                mut paster,
                mut piece,
                mut keys,
            } = room;
            copy(&mut paster, source, answers, &mut piece, &mut keys)
        }
        Err(NoMemory) => 6,
    }
}

// What copies, with all the memory that it needs: room for a piece of the input, and for what is given of it.
#[derive(Drop)]
struct Room {
    paster: Paster,
    piece: Vec<u8>,
    keys: Vec<u8>,
}

impl Room {
    fn new(alloc: Global) -> Result<Room, NoMemory>
        ensures pasted { IfOk result (λ room. (more : List ℕ) → rest_of room.paster more ≡ pasted more) }
        ensures begun { IfOk result (λ room. has_ended room.paster ≡ false) }
        ensures room { IfOk result (λ room. HasRoom room.paster) }
        ensures piece { IfOk result (λ room. 0 < vec_len room.piece) }
        ensures keys { IfOk result (λ room. 0 < vec_len room.keys) }
    {
        Ok(Room {
            paster: Paster::new(alloc)?,
            piece: vec![in alloc; 0; PIECE_SIZE]?,
            keys: vec![in alloc; 0; PIECE_SIZE]?,
        })
    }
}

// Copies piece by piece.
fn copy<S: Source, A: Sink>(
    paster: &mut Paster,
    source: &mut S,
    answers: &mut A,
    piece: &mut [u8],
    keys: &mut [u8],
) -> u8
    requires pasted { (more : List ℕ) → rest_of paster.old more ≡ pasted more }
    requires begun { has_ended paster.old ≡ false }
    requires room { HasRoom paster.old }
    requires piece { 0 < length piece.old }
    requires keys { 0 < length keys.old }
    ensures outcome { ReadAndTold (S.left source.old) (S.left source.new) (A.written answers.old) (A.written answers.new) (λ bytes a. ClipOutcome result (S.left source.new) bytes a []) }
    ensures only { IsClipStatus result }
    ensures read_fault { result ≡ 4 → Rose (S.faults source.old) (S.faults source.new) }
    ensures write_fault { result ≡ 5 → Rose (A.faults answers.old) (A.faults answers.new) }
    ensures later_source { S.faults source.old ≤ S.faults source.new }
    ensures later_answers { A.faults answers.old ≤ A.faults answers.new }
{
    let mut read = 0;
    while read <= MOST_BYTES {
        let count = match source.read(piece) {
            Ok(count) => count,
            Err(Failed) => return 4,
        };
        if count == 0 {
            return end(paster, answers, keys, 0);
        }
        let few = count.min(MOST_BYTES - read);
        match paste(paster, &piece[..few], answers, keys) {
            Ok(()) => read += count,
            Err(Failed) => return 5,
        }
    }
    end(paster, answers, keys, 11)
}

// Writes what is due for a piece.
fn paste<A: Sink>(
    paster: &mut Paster,
    piece: &[u8],
    answers: &mut A,
    keys: &mut [u8],
) -> Result<(), Failed>
    requires begun { has_ended paster.old ≡ false }
    requires room { HasRoom paster.old }
    requires keys { 0 < length keys.old }
    ensures written { HasWritten result paster.old piece.now paster.new (A.written answers.old) (A.written answers.new) }
    ensures begun { OnOk result (has_ended paster.new ≡ false) }
    ensures room { OnOk result (HasRoom paster.new) }
    ensures cause { OnErr result (Rose (A.faults answers.old) (A.faults answers.new)) }
    ensures later { A.faults answers.old ≤ A.faults answers.new }
{
    let mut at = 0;
    while at < piece.len() {
        at += paster.feed(&piece[at..]);
        match drain(paster, answers, keys) {
            Ok(()) => {}
            Err(Failed) => return Err(Failed),
        }
    }
    Ok(())
}

// Writes what is due for what was fed.
fn drain<A: Sink>(paster: &mut Paster, answers: &mut A, keys: &mut [u8]) -> Result<(), Failed>
    requires { 0 < length keys.old }
    ensures written { HasWritten result paster.old [] paster.new (A.written answers.old) (A.written answers.new) }
    ensures ended { has_ended paster.new ≡ has_ended paster.old }
    ensures room { OnOk result (HasRoom paster.new) }
    ensures over { OnOk result (has_ended paster.old ≡ true → IsOver paster.new) }
    ensures cause { OnErr result (Rose (A.faults answers.old) (A.faults answers.new)) }
    ensures later { A.faults answers.old ≤ A.faults answers.new }
{
    let mut count = paster.pull(keys);
    while count > 0 {
        match write_all(answers, &keys[..count]) {
            Ok(()) => count = paster.pull(keys),
            Err(Failed) => return Err(Failed),
        }
    }
    Ok(())
}

// Writes what is due at the end of the input, and answers the status, this one where all was written.
fn end<A: Sink>(paster: &mut Paster, answers: &mut A, keys: &mut [u8], status: u8) -> u8
    requires { 0 < length keys.old }
    ensures ends { EndsWith status (Rose (A.faults answers.old) (A.faults answers.new)) (rest_of paster.old []) (A.written answers.old) (A.written answers.new) result }
    ensures later { A.faults answers.old ≤ A.faults answers.new }
{
    paster.finish();
    match drain(paster, answers, keys) {
        Ok(()) => status,
        Err(Failed) => 5,
    }
}
