//! The words `play`: a recording is read, judged and then told of.

ghost use Rattle.std.specs.Prelude.{◌≡◌, ◌≤◌, ◌<◌, [], length, IfErr, IfOk};
ghost use Rattle.gate_outside.specs.Edge.{Rose};
ghost use Rattle.gate_script.specs.PlayOutcomes.{IsPlayStatus, IsRead, IsUnread, IsVerdict, PlayOutcome, ReadAndTold, TextEnds};
ghost use Rattle.gate_script.specs.PlayTold.{bad_recording_line};

use crate::play_told::told_of;
use crate::reply::push_answer_line;
use crate::stop::Stop;
use gate_model::NoMemory;
use gate_outside::{Sink, Source, write_all};
use record_play::RecordFault;
use script_grammar::PlayForm;
use std::alloc::Global;

/// How many bytes are read at once.
const READ_SIZE: usize = 65_536;

/// The most bytes of a recording, past which nothing is read (this project's own).
const MOST_BYTES: usize = 67_108_864;

/// Tells of the recording that the input is, and answers the status: 0, or 10 where it has a fault. It is read
/// to its end, or until it has a byte too many, before anything is written.
pub(crate) fn play<S: Source, A: Sink>(
    alloc: Global,
    form: PlayForm,
    source: &mut S,
    answers: &mut A,
) -> u8
    ensures outcome { ReadAndTold (S.left source.old) (S.left source.new) (A.written answers.old) (A.written answers.new) (λ bytes a. PlayOutcome result form (S.left source.new) bytes a []) }
    ensures only { IsPlayStatus result }
    ensures read_fault { result ≡ 4 → Rose (S.faults source.old) (S.faults source.new) }
    ensures write_fault { result ≡ 5 → Rose (A.faults answers.old) (A.faults answers.new) }
    ensures later_source { S.faults source.old ≤ S.faults source.new }
    ensures later_answers { A.faults answers.old ≤ A.faults answers.new }
{
    match read_all(alloc, source) {
        Ok(bytes) => match judge(alloc, form, &bytes) {
            Ok(verdict) => tell(&verdict, answers),
            Err(NoMemory) => 6,
        },
        Err(Stop::ReadFault) => 4,
        Err(_) => 6,
    }
}

// Reads the input to its end, or until there are more bytes than a recording may have.
fn read_all<S: Source>(alloc: Global, source: &mut S) -> Result<Vec<u8>, Stop>
    ensures read { IfOk result (λ v. IsRead (S.left source.old) (S.left source.new) v.items) }
    ensures unread { IfErr result (IsUnread (S.left source.old) (S.left source.new) (Rose (S.faults source.old) (S.faults source.new))) }
    ensures later { S.faults source.old ≤ S.faults source.new }
{
    let mut piece = vec![in alloc; 0u8; READ_SIZE]?;
    read_parts(alloc, source, &mut piece)
}

// Reads it part by part, each into the piece.
fn read_parts<S: Source>(alloc: Global, source: &mut S, piece: &mut [u8]) -> Result<Vec<u8>, Stop>
    requires { 0 < length piece.old }
    ensures read { IfOk result (λ v. IsRead (S.left source.old) (S.left source.new) v.items) }
    ensures unread { IfErr result (IsUnread (S.left source.old) (S.left source.new) (Rose (S.faults source.old) (S.faults source.new))) }
    ensures later { S.faults source.old ≤ S.faults source.new }
{
    let mut bytes = Vec::new(alloc);
    while bytes.len() <= MOST_BYTES {
        match source.read(piece) {
            Ok(count) => {
                if count == 0 {
                    return Ok(bytes);
                }
                match bytes.extend_from_slice(&piece[..count]) {
                    Ok(()) => {}
                    Err(_) => return Err(Stop::NoMemory),
                }
            }
            Err(_) => return Err(Stop::ReadFault),
        }
    }
    Ok(bytes)
}

// What is told, and the status that comes with it.
#[derive(Drop)]
struct Verdict {
    text: Vec<u8>,
    status: u8,
}

fn judge(alloc: Global, form: PlayForm, bytes: &[u8]) -> Result<Verdict, NoMemory>
    ensures { IfOk result (λ v. IsVerdict form bytes.now v.status v.text.items) }
{
    match told_of(alloc, form, bytes) {
        Ok(text) => Ok(Verdict { text, status: 0 }),
        Err(RecordFault::Bad { place }) => bad_recording(alloc, place),
        Err(RecordFault::NoMemory) => Err(NoMemory),
    }
}

// The place of the first fault.
fn bad_recording(alloc: Global, place: usize) -> Result<Verdict, NoMemory>
    ensures status { IfOk result (λ v. v.status ≡ 10) }
    ensures text { IfOk result (λ v. v.text.items ≡ bad_recording_line place) }
{
    let mut text = Vec::new(alloc);
    push_answer_line(&mut text, "bad recording", &[place as u64])?;
    Ok(Verdict { text, status: 10 })
}

// Writes what is told, and answers the status.
fn tell<A: Sink>(verdict: &Verdict, answers: &mut A) -> u8
    ensures ended { TextEnds verdict.now.status verdict.now.text.items result (Rose (A.faults answers.old) (A.faults answers.new)) (A.written answers.old) (A.written answers.new) }
    ensures later { A.faults answers.old ≤ A.faults answers.new }
{
    match write_all(answers, &verdict.text) {
        Ok(()) => verdict.status,
        Err(_) => 5,
    }
}
