//! The program `guacgate`: it draws what a Telnet host sent, as the instructions of the Guacamole
//! protocol that a viewer is given, does scripts and loads, tells of recordings, types what is pasted, and serves
//! viewers over the network.
//!
//! All that it says of its input and its outputs is the contract of `gate_top::top`. What stands
//! here is only the friendly edge: the words of the command line, `--help` and `--version`, and the ends of the
//! system.
#![tactic(auto)]

ghost use Rattle.std.specs.Prelude.{◌≡◌, ◌≢◌, ◌⊎◌, IfErr};

use ending::ended;
use ends::{Ends, ends_of};
use gate_outside::{Sink, StdSink, StdSource};
use gate_top::{Host, top};
use help::tell;
use limits::behind_serve;
use saying::say_unprepared;
use std::io::ErrorKind;
use std::process::ExitCode;
use std::{env, thread};

mod admin;
mod asking;
mod ending;
mod ends;
mod help;
mod limits;
mod manager;
mod noting;
mod saying;
mod seed;
mod serving;
mod standard;

fn main(rt: HostRuntime) -> ExitCode {
    let mut output = StdSink::new(rt.stdout());
    let (words, ends) = match begin(&rt, &mut output) {
        Ok(begun) => begun,
        Err(status) => return ExitCode::from(status),
    };
    let Ends {
        serves,
        net,
        files,
        watch,
        notes,
        list,
        lookout,
        counter,
    } = ends;
    let mut host = Host {
        source: StdSource::new(rt.reader()),
        answers: output,
        frames: StdSink::new(rt.stderr()),
        net,
        files,
        log: notes.log(&rt),
        list,
    };
    if serves {
        notes.start(&rt);
        let _ = thread::spawn(&rt, move || lookout.look_after(&rt));
    }
    if let Some(counter) = counter {
        let _ = thread::spawn(&rt, move || counter.serve(&rt));
    }
    let status = top(&rt, rt.alloc(), &words, &mut host);
    ExitCode::from(ended(&rt, status, serves, &watch, notes))
}

// The words and the ends of the system that a run takes, or the status where there is none: a text was asked for, or a
// fault is told.
fn begin<K: Sink>(rt: &HostRuntime, output: &mut K) -> Result<(Vec<String>, Ends), u8> {
    let words = words(rt)?;
    if let Some(status) = tell(rt, &words, output) {
        return Err(status);
    }
    let serves = behind_serve(&words).is_some();
    match prepare(rt, words, serves) {
        Ok(prepared) => Ok(prepared),
        Err(status) => {
            say_unprepared(rt, serves, status);
            Err(status)
        }
    }
}

// The words with their seed, and the ends that they ask for.
fn prepare(rt: &HostRuntime, words: Vec<String>, serves: bool) -> Result<(Vec<String>, Ends), u8> {
    if serves {
        standard::fill_ends(rt);
    }
    let words = seed::read_in(rt, words)?;
    let ends = ends_of(rt, &words, serves)?;
    Ok((words, ends))
}

// The words after the program's name.
fn words(rt: &HostRuntime) -> Result<Vec<String>, u8>
    ensures status { IfErr result (λ status. (status ≡ 2) ⊎ (status ≡ 6)) }
{
    let words = env::args(rt).map_err(|error| unread(error.kind()))?;
    words.skip(1).collect(rt.alloc()).map_err(|_| 6)
}

// The status where the words couldn't be had. Words that aren't text are faulty words.
fn unread(kind: ErrorKind) -> u8
    ensures memory { kind ≡ ErrorKind.OutOfMemory → result ≡ 6 }
    ensures faulty { kind ≢ ErrorKind.OutOfMemory → result ≡ 2 }
{
    match kind {
        ErrorKind::OutOfMemory => 6,
        _ => 2,
    }
}
