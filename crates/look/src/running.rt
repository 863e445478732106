//! A run of the program: the input is read, looked at and shown.

ghost use Rattle.std.specs.Prelude.{◌≡◌, ◌≤◌, ◌⊎◌, IfOk, IfErr, IsErr};
ghost use Rattle.gate_outside.specs.Edge.{Rose, came};
ghost use Rattle.look.specs.Statuses.{HasCause};

use crate::choosing::{is_frames, text_of_viewer};
use crate::faces::text_of;
use crate::looked::{End, Looked};
use crate::looking::look_at;
use crate::ppm::ppm_of;
use crate::stop::Stop;
use crate::words::{Asked, Form};
use gate_model::NoMemory;
use gate_outside::{Failed, Sink, Source, write_all};
use guac_framing::BadKind;
use itoa::Buffer;
use std::alloc::Global;

/// How many bytes are read at once.
const READ_SIZE: usize = 65536;

/// Reads the input to its end, shows the picture that was asked for, and tells which it is. The answer is
/// the status: 0, or 3 where the input is no stream of instructions to its end; what stands before that
/// place was shown. An instruction that isn't finished at the end is no fault.
pub fn run<S: Source, P: Sink, N: Sink>(
    alloc: Global,
    asked: Asked,
    source: &mut S,
    picture: &mut P,
    notes: &mut N,
) -> Result<u8, Stop>
    ensures cause { IfErr result (HasCause (Rose (S.faults source.old) (S.faults source.new)) (Rose (P.faults picture.old) (P.faults picture.new) ⊎ Rose (N.faults notes.old) (N.faults notes.new))) }
{
    let input = read_all(alloc, source)?;
    let looked = look(alloc, asked, &input)?;
    let shown = shown(alloc, asked.form, &looked)?;
    written(write_all(picture, &shown))?;
    let note = note_of(alloc, &looked)?;
    written(write_all(notes, note.as_bytes()))?;
    Ok(status_of(looked.end))
}

// Reads the input to its end.
fn read_all<S: Source>(alloc: Global, source: &mut S) -> Result<Vec<u8>, Stop>
    ensures read { IfOk result (λ v. S.left source.old ≡ came v.items (S.left source.new)) }
    ensures cause { IfErr result (HasCause (Rose (S.faults source.old) (S.faults source.new)) ⊥) }
    ensures later { S.faults source.old ≤ S.faults source.new }
{
    let mut buffer = vec![in alloc; 0u8; READ_SIZE]?;
    let mut input = Vec::new(alloc);
    for _read in 0..u64::MAX {
        match source.read(&mut buffer) {
            Ok(count) => {
                if count == 0 {
                    return Ok(input);
                }
                input.extend_from_slice(&buffer[..count])?;
            }
            Err(_) => return Err(Stop::ReadFault),
        }
    }
    Err(Stop::NoMemory)
}

// A write that failed ends the run.
fn written(done: Result<(), Failed>) -> Result<(), Stop>
    ensures { IfErr result (λ stop. IsErr done × (stop ≡ Stop.WriteFault)) }
{
    match done {
        Ok(()) => Ok(()),
        Err(Failed) => Err(Stop::WriteFault),
    }
}

// The look at the stream that was asked for.
fn look(alloc: Global, asked: Asked, input: &[u8]) -> Result<Looked, NoMemory> {
    if is_frames(input) {
        let text = text_of_viewer(alloc, input, asked.viewer)?;
        look_at(alloc, &text, asked.until)
    } else {
        look_at(alloc, input, asked.until)
    }
}

// The picture in the form that was asked for.
fn shown(alloc: Global, form: Form, looked: &Looked) -> Result<Vec<u8>, NoMemory> {
    match form {
        Form::Ppm => ppm_of(alloc, &looked.canvas),
        Form::Text => text_of(alloc, &looked.canvas),
    }
}

// What is told of the picture: which it is, and where and why the reading ended before the input did.
fn note_of(alloc: Global, looked: &Looked) -> Result<String, NoMemory> {
    let mut note = String::new(alloc);
    if looked.marks.frame == 0 {
        note.push_str("no frame\n")?;
    } else {
        put_words(
            &mut note,
            "frame",
            &[looked.marks.frame as u64, looked.marks.syncs as u64],
        )?;
        put_words(&mut note, "stamp", &[looked.marks.stamp])?;
    }
    match looked.end {
        End::Whole => {}
        End::Cut => put_words(&mut note, "cut", &[looked.read as u64])?,
        End::Bad(at) => {
            let place = looked.read.saturating_add(at.place);
            put_words(&mut note, kind_of(at.kind), &[place as u64])?;
        }
    }
    Ok(note)
}

// Appends a line of a word and numbers.
fn put_words(note: &mut String, word: &str, numbers: &[u64]) -> Result<(), NoMemory> {
    note.push_str(word)?;
    for number in numbers {
        note.push(' ')?;
        note.push_str(Buffer::new().format(*number))?;
    }
    note.push('\n')?;
    Ok(())
}

// The words for a bad byte.
fn kind_of(kind: BadKind) -> &'static str {
    match kind {
        BadKind::Digit => "bad digit",
        BadKind::Length => "bad length",
        BadKind::Separator => "bad separator",
        BadKind::Utf8 => "bad utf8",
        BadKind::TooMany => "bad many",
        BadKind::TooLong => "bad long",
    }
}

// The status of a look whose reading ended so.
fn status_of(end: End) -> u8 {
    match end {
        End::Whole | End::Cut => 0,
        End::Bad(_) => 3,
    }
}
