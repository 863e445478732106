//! The program `look`: it shows the picture of a stream of Guacamole instructions, or of the frames that
//! guacgate writes, as text or as a portable pixmap.
//!
//! `look_at` says which picture that is: `IsLooked` of `specs/Shown.antt`. The canvas shows what the
//! instructions up to the sync that is asked for draw from nothing, by the drawing machine of gate_model's
//! `specs/picture/Layers.antt`. A cell's face and the pixmap are told of that canvas (`specs/Faces.antt`,
//! `specs/Ppm.antt`).
#![tactic(auto)]

mod choosing;
mod faces;
mod looked;
mod looking;
mod ppm;
mod running;
mod stop;
#[cfg(test)]
mod tests;
mod until;
mod words;

use gate_outside::{StdSink, StdSource, write_all};
use running::run;
use std::env;
use std::io::ErrorKind;
use std::process::ExitCode;
use stop::Stop;
use words::asked_of;

const VERSION: &str = "look 0.1.0\n";

const HELP: &str =
    "look shows the picture of a stream of Guacamole instructions, or of guacgate's frames.

usage: look [text|ppm] [last|frame N|stamp T] [viewer V] < STREAM

text     as text, a character a cell (this is done where no form is given)
ppm      as a portable pixmap
last     the picture at the last sync (this is done where none is given)
frame N  the picture at sync N, counted from 1, or at the last one where there are fewer
stamp T  the picture at the last sync whose stamp is at most T
viewer V of frames, the lines of viewer V; the session's own, of number 0, where none is given

The picture goes to standard output. Standard error tells which it is: the number of its sync and how many
there are, and its stamp; or that there is none; and where and why the stream isn't one from there on.

status: 0 done, 2 faulty words, 3 the input isn't instructions to its end, 4 reading failed, 5 writing
failed, 6 no memory
";

fn main(rt: HostRuntime) -> ExitCode {
    let words = match words_given(&rt) {
        Ok(words) => words,
        Err(status) => return ExitCode::from(status),
    };
    let mut picture = StdSink::new(rt.stdout());
    if let Some(text) = text_asked(&words) {
        let status = if write_all(&mut picture, text.as_bytes()).is_ok() {
            0
        } else {
            5
        };
        return ExitCode::from(status);
    }
    let Some(asked) = asked_of(&words) else {
        return ExitCode::from(2);
    };
    let mut input = StdSource::new(rt.reader());
    let mut notes = StdSink::new(rt.stderr());
    let status = match run(rt.alloc(), asked, &mut input, &mut picture, &mut notes) {
        Ok(status) => status,
        Err(Stop::ReadFault) => 4,
        Err(Stop::WriteFault) => 5,
        Err(Stop::NoMemory) => 6,
    };
    ExitCode::from(status)
}

// The words after the program's name, or the status where they couldn't be had.
fn words_given(rt: &HostRuntime) -> Result<Vec<String>, u8> {
    let words = env::args(rt).map_err(|error| match error.kind() {
        ErrorKind::OutOfMemory => 6,
        _ => 2,
    })?;
    words.skip(1).collect(rt.alloc()).map_err(|_| 6)
}

// The text that was asked for, where one of these words is the only one.
fn text_asked(words: &[String]) -> Option<&'static str> {
    let [word] = words else {
        return None;
    };
    match word.as_str() {
        "--help" | "-h" => Some(HELP),
        "--version" => Some(VERSION),
        _ => None,
    }
}
