//! The texts that words ask for in place of a run: `--help`, `--version`, and what `serve` is given.

ghost use Rattle.std.specs.Prelude.{◌≡◌, map, option_map, string_bytes, OnOk, OnErr};
ghost use Rattle.guacgate.specs.Words.{asks_of_serve, text_asked, text_of};

use gate_outside::{Failed, Sink, write_all};

pub const VERSION: &str = "guacgate 0.1.0\n";

pub const HELP: &str = "guacgate shows a Telnet session as instructions of the Guacamole protocol.

usage: guacgate draw COLS ROWS < BYTES
       guacgate script [ENTRIES] < LINES
       guacgate load SEED ROUNDS
       guacgate play info < RECORDING
       guacgate play at STAMP < RECORDING
       guacgate play keys < BYTES
       guacgate clip < BYTES
       guacgate serve --seed HEX [--port PORT] [--recorder HOST:PORT] [--log LEVEL]
                      [--log-format FORMAT] [--allow HOST:PORT] [--silence SECONDS]
                      [--linger SECONDS] [--faces SET] [--page] [--name NAME]
                      [--admin ADDRESS:PORT]

draw    draws what a Telnet host sent, read from standard input, on a screen of COLS columns (1 to
        512) and ROWS rows (1 to 256), at most 8192 cells
script  does the lines of a script, as start 80 24 none, join owner, server 48690d0a, read 1; its
        session may have ENTRIES entries (1 to 2^40, 2^40 where none is given)
load    does ROUNDS rounds (0 to 1000000) of lines that words drawn under SEED (0 to 2^64 - 1) make,
        and tells seven totals; it reads nothing
play    tells of a recording its syncs, or what it shows at a stamp (0 to 2^64 - 1), and of what a client
        sent the keys; there are no frames
clip    copies what a client sent, at most 67108864 bytes, with what is pasted in it typed as keys; there
        are no frames
serve   serves viewers, by the Guacamole protocol and over HTTP, on a port of this machine, 4822
        where none is given; the seed is read from standard input where it is -; serve --help tells
        more

The answers go to standard output, the instructions that each frame has, and those that a viewer is
given, to standard error.

status: 0 done, 2 faulty words, 3 a line of the script is outside the grammar, 4 reading failed, 5
writing failed, 6 no memory, 7 the session is full, 8 the port can't be listened on, 10 what is played has a fault,
11 what is copied is too long
";

/// Tells the text that the words ask for, if they ask for one: the status then.
pub(crate) fn tell<K: Sink>(rt: &HostRuntime, words: &[String], output: &mut K) -> Option<u8> {
    if let Some(text) = asked(words) {
        return Some(told(write_all(output, text.as_bytes())));
    }
    if !asks_of_serve(words) {
        return None;
    }
    match serve_options::help(rt.alloc()) {
        Ok(text) => Some(told(write_all(output, text.as_bytes()))),
        Err(_) => Some(6),
    }
}

// Whether the words ask what `serve` is given.
fn asks_of_serve(words: &[String]) -> bool
    ensures { result ≡ asks_of_serve (map string_bytes words.now) }
{
    match words {
        [name, word] => {
            let word = word.as_str();
            name.as_str() == "serve" && (word == "--help" || word == "-h")
        }
        _ => false,
    }
}

// The text that was asked for, where one of these words is the only one.
fn asked(words: &[String]) -> Option<&'static str>
    ensures text { option_map (λ text. text.now) result ≡ text_asked (map string_bytes words.now) }
{
    let [word] = words else {
        return None;
    };
    text_of(word.as_str())
}

// The text that a word asks for.
fn text_of(word: &str) -> Option<&'static str>
    ensures text { option_map (λ text. text.now) result ≡ text_of word.now }
{
    match word {
        "--help" | "-h" => Some(HELP),
        "--version" => Some(VERSION),
        _ => None,
    }
}

// The status after the text that was asked for.
fn told(written: Result<(), Failed>) -> u8
    ensures done { OnOk written (result ≡ 0) }
    ensures fault { OnErr written (result ≡ 5) }
{
    match written {
        Ok(()) => 0,
        Err(Failed) => 5,
    }
}
