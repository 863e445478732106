//! The words, and the status that a run ends with.

ghost use Rattle.std.specs.Prelude.{◌≡◌, ◌≤◌, ◌↔◌, ◌⊎◌, [], Option, List, ℕ, map, string_bytes, IfErr, IfOk, None, Some};
ghost use Rattle.gate_outside.specs.Edge.{Rose};
ghost use Rattle.script_grammar.specs.declared.form.Form.{Form as Forms};
ghost use Rattle.script_grammar.specs.Words.{IsTextForm, form_of};
ghost use Rattle.gate_script.specs.Outcomes.{IsStatus, LinesOutcome, LoadOutcome, Outcome, Ran, WroteSo, last_line};
ghost use Rattle.gate_script.specs.Sinks.{held};
ghost use Rattle.gate_script.specs.Running.{Ended, HasCause, HasRead, Put, RunEnds, refused_status, status_after};

use crate::clip::clip;
use crate::halt::Halt;
use crate::input::Input;
use crate::load::Load;
use crate::play::play;
use crate::refused::Refused;
use crate::reply::Reply;
use crate::run::Run;
use crate::stop::Stop;
use gate_outside::{Sink, Source, write_all};
use script_grammar::{Form, TextForm, form_of};
use std::alloc::Global;

/// Does what the words say, and answers the status. The words are those after the program's name, in
/// one of these forms, with numbers of 1 to 20 decimal digits (this project's own rule).
///
/// - `draw COLS ROWS`: 1 to 512 columns, 1 to 256 rows, at most 8,192 cells.
/// - `script` or `script ENTRIES`: 1 to 2^40 entries, 2^40 where none is given.
/// - `load SEED ROUNDS`: a seed below 2^64, at most 1,000,000 rounds. Nothing is read.
/// - `play info`, `play at STAMP` or `play keys`: a stamp below 2^64. The input is a recording, or for `keys` a
///   client's stream, of at most 67,108,864 bytes; no frames are written.
/// - `clip`: the input, a client's stream, is copied to the answers, and what is pasted in it is typed as keys; no
///   frames are written.
///
/// The statuses: 0, the input was read to its end, or the rounds were done; 2, the words are of no form, and nothing is read or
/// written; 3, a line of the script is outside the grammar; 4, the source failed; 5, a sink failed; 6,
/// want of memory; 7, the session may have no more entries; 10, the recording has a fault, or the stream a bad
/// byte; 11, the input of `clip` has more than 67,108,864 bytes, of which the first so many were copied.
pub fn command<S: Source, A: Sink, F: Sink>(
    alloc: Global,
    words: &[String],
    source: &mut S,
    answers: &mut A,
    frames: &mut F,
) -> u8
    ensures usage { (form_of (map string_bytes words.now) ≡ None) ↔ (result ≡ 2) }
    ensures nothing { result ≡ 2 → (S.left source.new ≡ S.left source.old) × (A.written answers.new ≡ A.written answers.old) × (F.written frames.new ≡ F.written frames.old) }

    // What each other status says of the bytes read and written; and the bytes that takes print are the
    // first ones that the history sends to the host.
    ensures outcome { (form : Forms) → form_of (map string_bytes words.now) ≡ Some form →
        Ran (S.left source.old) (S.left source.new) (A.written answers.old) (A.written answers.new) (F.written frames.old) (F.written frames.new)
        (Outcome result form (S.left source.new)) }

    // A fault is answered only where the count of the source, or of a sink, rose in this call.
    ensures read_fault { result ≡ 4 → Rose (S.faults source.old) (S.faults source.new) }
    ensures write_fault { result ≡ 5 → Rose (A.faults answers.old) (A.faults answers.new) ⊎ Rose (F.faults frames.old) (F.faults frames.new) }
    ensures later_source { S.faults source.old ≤ S.faults source.new }
    ensures later_answers { A.faults answers.old ≤ A.faults answers.new }
    ensures later_frames { F.faults frames.old ≤ F.faults frames.new }
{
    match form_of(words) {
        None => 2,
        Some(Form::Text(form)) => text(alloc, form, source, answers, frames),
        Some(Form::Load(seed, rounds)) => load(alloc, seed, rounds, answers, frames),
        Some(Form::Play(told)) => play(alloc, told, source, answers),
        Some(Form::Clip) => clip(alloc, source, answers),
    }
}

// Does the lines that the input makes, and answers the status.
fn text<S: Source, A: Sink, F: Sink>(
    alloc: Global,
    form: TextForm,
    source: &mut S,
    answers: &mut A,
    frames: &mut F,
) -> u8
    requires { IsTextForm form }
    ensures only { IsStatus result }
    ensures outcome { Ran (S.left source.old) (S.left source.new) (A.written answers.old) (A.written answers.new) (F.written frames.old) (F.written frames.new) (LinesOutcome result form (S.left source.new)) }
    ensures read_fault { result ≡ 4 → Rose (S.faults source.old) (S.faults source.new) }
    ensures write_fault { result ≡ 5 → Rose (A.faults answers.old) (A.faults answers.new) ⊎ Rose (F.faults frames.old) (F.faults frames.new) }
    ensures later_source { S.faults source.old ≤ S.faults source.new }
    ensures later_answers { A.faults answers.old ≤ A.faults answers.new }
    ensures later_frames { F.faults frames.old ≤ F.faults frames.new }
{
    let ended = run(alloc, form, source, answers, frames);
    status(alloc, ended, answers)
}

// Does the lines that drawn words make, and answers the status.
fn load<A: Sink, F: Sink>(
    alloc: Global,
    seed: u64,
    rounds: u32,
    answers: &mut A,
    frames: &mut F,
) -> u8
    requires { rounds ≤ 1000000 }
    ensures outcome { WroteSo (A.written answers.old) (A.written answers.new) (F.written frames.old) (F.written frames.new) (LoadOutcome result seed rounds []) }
    ensures only { (result ≡ 0) ⊎ (result ≡ 5) ⊎ (result ≡ 6) }
    ensures write_fault { result ≡ 5 → Rose (A.faults answers.old) (A.faults answers.new) ⊎ Rose (F.faults frames.old) (F.faults frames.new) }
    ensures later_answers { A.faults answers.old ≤ A.faults answers.new }
    ensures later_frames { F.faults frames.old ≤ F.faults frames.new }
{
    let mut load = Load::new(alloc);
    let loaded = load.run(alloc, seed, rounds, answers, frames);
    status(alloc, loaded, answers)
}

// Opens a run of this form, reads the input to its end and does it.
fn run<S: Source, A: Sink, F: Sink>(
    alloc: Global,
    form: TextForm,
    source: &mut S,
    answers: &mut A,
    frames: &mut F,
) -> Result<(), Stop>
    requires { IsTextForm form }
    ensures ran { HasRead (S.left source.old) (S.left source.new) (λ bytes. RunEnds form bytes (S.left source.new) (Rose (S.faults source.old) (S.faults source.new)) result
        (held (A.written answers.old) (A.faults answers.old) (F.written frames.old) (F.faults frames.old)) (held (A.written answers.new) (A.faults answers.new) (F.written frames.new) (F.faults frames.new))) }
    ensures later { S.faults source.old ≤ S.faults source.new }
{
    let mut input = Input {
        run: Run::new(alloc, form),
        piece: Vec::new(alloc),
    };
    input.run.open(alloc, answers, frames)?;
    input.read_all(alloc, source, answers, frames)
}

// The status of a run, after its last answer where it has one.
fn status<A: Sink>(alloc: Global, ended: Result<(), Stop>, answers: &mut A) -> u8
    ensures ended { Ended ended result (Rose (A.faults answers.old) (A.faults answers.new)) (A.written answers.old) (A.written answers.new) }
    ensures later { A.faults answers.old ≤ A.faults answers.new }
{
    match ended {
        Ok(()) => 0,
        Err(Stop::ReadFault) => 4,
        Err(Stop::WriteFault) => 5,
        Err(Stop::NoMemory) => 6,
        Err(Stop::Refused(refused)) => {
            status_after(say_last(alloc, refused, answers), refused_status(refused))
        }
    }
}

// Writes the last answer.
fn say_last<A: Sink>(alloc: Global, refused: Refused, answers: &mut A) -> Result<(), Stop>
    ensures put { Put result (last_line refused) (A.written answers.old) (A.written answers.new) }
    ensures later { A.faults answers.old ≤ A.faults answers.new }
    ensures cause { IfErr result (λ stop. HasCause stop (Rose (A.faults answers.old) (A.faults answers.new))) }
{
    let Ok(line) = last_line(alloc, refused) else {
        return Err(Stop::NoMemory);
    };
    match write_all(answers, &line.answer) {
        Ok(()) => Ok(()),
        Err(_) => Err(Stop::WriteFault),
    }
}

// The last answer.
fn last_line(alloc: Global, refused: Refused) -> Result<Reply, Halt>
    ensures { IfOk result (λ reply. reply.answer.items ≡ last_line refused) }
{
    let mut reply = Reply::new(alloc);
    match refused {
        Refused::BadLine(number) => reply.say("bad script line", &[number])?,
        Refused::Worn(entries) => reply.say("worn", &[entries])?,
    }
    Ok(reply)
}

// The status of a refused line.
fn refused_status(refused: Refused) -> u8
    ensures { result ≡ refused_status refused }
{
    match refused {
        Refused::BadLine(_) => 3,
        Refused::Worn(_) => 7,
    }
}

// The status, where the last answer could be written.
fn status_after(said: Result<(), Stop>, status: u8) -> u8
    ensures { result ≡ status_after said status }
{
    match said {
        Ok(()) => status,
        Err(Stop::WriteFault) => 5,
        Err(_) => 6,
    }
}
