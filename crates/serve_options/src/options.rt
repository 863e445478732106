//! The options.

ghost use Rattle.std.specs.Prelude.{◌≡◌, ◌≢◌, Err, IfOk, None, Some, map, option_map, string_bytes};
ghost use Rattle.clap.specs.Words.{kind_of};
ghost use Rattle.serve_options.specs.Given.{manner_in, options_given, options_in, options_with, place_in};
ghost use Rattle.serve_options.specs.Values as value;
ghost use Rattle.serve_options.specs.declared.options.WordsFault.TheVariants.{NoMemory as no_memory, Usage as usage};

use crate::allowed::{Allowed, allowed_in};
use crate::command::serve_command;
use crate::format::LogFormat;
use crate::names::{Names, page_in};
use crate::texts::{Texts, texts_in};
use crate::values::{
    address_of, faces_of, flag_of, format_of, level_of, place_of, port_of, seconds_of, seed_of,
};
use clap::Error;
use clap::error::ErrorKind;
use gate_model::{Faces, Text};
use log::LevelFilter;
use std::alloc::{AllocError, Global};

/// How a service runs: the seed under which its dice draw IDs, the port that it listens on, 1 to 65,535, the host
/// and the port of the recorder of its sessions, where one is wanted, how much it notes and how that is written, where the
/// operator asks, if anywhere, which hosts and ports alone
/// may be dialed, where not all may, after how many seconds a viewer or a host is given up that sends or takes nothing,
/// and after how many a session without viewers is closed, of which 0 is never, which faces its sessions have, and by which names the page may be asked
/// for, where it is wanted.
#[derive(Drop)]
pub struct Options {
    pub seed: [u8; 32],
    pub port: u16,
    pub recorder: Option<(Text, u16)>,
    pub level: LevelFilter,
    pub format: LogFormat,
    pub admin: Option<(Text, u16)>,
    pub allow: Option<Allowed>,
    pub silence: u32,
    pub linger: u32,
    pub faces: Faces,
    pub page: Option<Names>,
}

// The options of where a service listens, records, notes and tells.
#[derive(Drop)]
struct Place {
    seed: [u8; 32],
    port: u16,
    recorder: Option<(Text, u16)>,
    level: LevelFilter,
    format: LogFormat,
    admin: Option<(Text, u16)>,
}

// The options of whom it dials and gives up, and of what it shows.
#[derive(Drop)]
struct Manner {
    allow: Option<Allowed>,
    silence: u32,
    linger: u32,
    faces: Faces,
    page: Option<Names>,
}

/// Why the words give no options.
#[derive(Clone, Copy, Debug, PartialEq, Eq)]
pub enum WordsFault {
    /// They are of no form, or ask for help.
    Usage,
    /// Want of memory.
    NoMemory,
}

impl From<AllocError> for WordsFault {
    ghost from_gives = { λ _ fault. fault ≡ no_memory };

    fn from(_refused: AllocError) -> WordsFault {
        WordsFault::NoMemory
    }
}

/// The options that the words after `serve` give: `--seed HEX` of 64 hexadecimal digits, which has to be there,
/// `--port P` of 1 to 20 decimal digits, 1 to 65,535, else 4822, `--recorder HOST:PORT` with a host that isn't empty
/// and such a port behind the last colon, else none, `--log` with `error`, `warn` or `info`, else `warn`, `--log-format` with `text` or `json`, else `text`, `--admin
/// ADDRESS:PORT` of the form of a recorder's, or a port alone, which is one of 127.0.0.1, else none, `--allow
/// HOST:PORT` of the same form, any number of times, else all may be dialed, `--silence SECONDS` and `--linger
/// SECONDS` of 0 to 1,000,000, else 0, `--faces` with `ascii` or `more`, else `ascii`, and `--page`, with `--name NAME` any number of times. Usage comes exactly where
/// the words give none, but for want of memory.
pub fn options_of(alloc: Global, words: &[String]) -> Result<Options, WordsFault>
    ensures given { IfOk result (λ options. options_given (map string_bytes words.now) ≡ Some options) }
    ensures usage { result ≡ Err usage → options_given (map string_bytes words.now) ≡ None }
{
    match serve_command(alloc)?.try_get_matches_from(words) {
        Ok(matches) => read(alloc, &texts_in(&matches)),
        Err(error) => Err(fault_of(&error)),
    }
}

// The options of the texts.
fn read(alloc: Global, texts: &Texts<'_>) -> Result<Options, WordsFault>
    ensures given { IfOk result (λ options. options_in texts.now ≡ Some options) }
    ensures usage { result ≡ Err usage → options_in texts.now ≡ None }
{
    let place = place_in(alloc, texts)?;
    let manner = manner_in(alloc, texts)?;
    Ok(options_with(place, manner))
}

// The options of both.
fn options_with(place: Place, manner: Manner) -> Options
    ensures { result ≡ options_with place manner }
{
    let seed = place.seed;
    Options {
        seed,
        port: place.port,
        recorder: place.recorder,
        level: place.level,
        format: place.format,
        admin: place.admin,
        allow: manner.allow,
        silence: manner.silence,
        linger: manner.linger,
        faces: manner.faces,
        page: manner.page,
    }
}

// Where the service of the texts listens, records, notes and tells.
fn place_in(alloc: Global, texts: &Texts<'_>) -> Result<Place, WordsFault>
    ensures given { IfOk result (λ place. place_in texts.now ≡ Some place) }
    ensures usage { result ≡ Err usage → place_in texts.now ≡ None }
{
    let seed = texts.seed.and_then(seed_of).ok_or(WordsFault::Usage)?;
    let port = texts.port.and_then(port_of).ok_or(WordsFault::Usage)?;
    let recorder = recorder_in(alloc, texts.recorder)?;
    let level = texts.level.and_then(level_of).ok_or(WordsFault::Usage)?;
    let format = texts.format.and_then(format_of).ok_or(WordsFault::Usage)?;
    let admin = admin_in(alloc, texts.admin)?;
    Ok(Place {
        seed,
        port,
        recorder,
        level,
        format,
        admin,
    })
}

// Whom it dials and gives up, and what it shows.
fn manner_in(alloc: Global, texts: &Texts<'_>) -> Result<Manner, WordsFault>
    ensures given { IfOk result (λ manner. manner_in texts.now ≡ Some manner) }
    ensures usage { result ≡ Err usage → manner_in texts.now ≡ None }
{
    let allow = allowed_in(alloc, texts.allow)?;
    let silence = texts.silence.and_then(seconds_of).ok_or(WordsFault::Usage)?;
    let linger = texts.linger.and_then(seconds_of).ok_or(WordsFault::Usage)?;
    let faces = texts.faces.and_then(faces_of).ok_or(WordsFault::Usage)?;
    let page = texts.page.and_then(flag_of).ok_or(WordsFault::Usage)?;
    let page = page_in(alloc, page, texts.names)?;
    Ok(Manner {
        allow,
        silence,
        linger,
        faces,
        page,
    })
}

// The recorder that a text names, where there is one.
fn recorder_in(alloc: Global, text: Option<&str>) -> Result<Option<(Text, u16)>, WordsFault>
    ensures given { IfOk result (λ recorder. value.recorder_of (option_map (λ s. s.now) text.entry) ≡ Some recorder) }
    ensures usage { result ≡ Err usage → value.recorder_of (option_map (λ s. s.now) text.entry) ≡ None }
{
    let Some(text) = text else {
        return Ok(None);
    };
    let Some((host, port)) = address_of(text) else {
        return Err(WordsFault::Usage);
    };
    let host = Text::of(String::from_str(alloc, host)?);
    Ok(Some((host, port)))
}

// Where the operator asks, if a text names that.
fn admin_in(alloc: Global, text: Option<&str>) -> Result<Option<(Text, u16)>, WordsFault>
    ensures given { IfOk result (λ admin. value.admin_of (option_map (λ s. s.now) text.entry) ≡ Some admin) }
    ensures usage { result ≡ Err usage → value.admin_of (option_map (λ s. s.now) text.entry) ≡ None }
{
    let Some(text) = text else {
        return Ok(None);
    };
    let Some((address, port)) = place_of(text) else {
        return Err(WordsFault::Usage);
    };
    let address = Text::of(String::from_str(alloc, address)?);
    Ok(Some((address, port)))
}

// What a refusal of the command is.
fn fault_of(error: &Error) -> WordsFault
    ensures { result ≡ usage → kind_of error.now ≢ ErrorKind.OutOfMemory }
{
    match error.kind() {
        ErrorKind::OutOfMemory => WordsFault::NoMemory,
        _ => WordsFault::Usage,
    }
}
