//! What is wrong with the words, said to people.

ghost use Rattle.std.specs.Prelude.{◌↔◌, IfOk, IsNone, IsSome, map, string_bytes};
ghost use Rattle.serve_options.specs.Given.{options_given};

use crate::command::serve_command;
use crate::names::is_name;
use crate::texts::{Texts, texts_in};
use crate::values::{
    address_of, faces_of, format_of, level_of, place_of, port_of, seconds_of, seed_of,
};
use crate::{WordsFault, options_of};
use gate_model::NoMemory;
use std::alloc::Global;

/// Why the words after `serve` give no options: what `clap` says of them, or which value isn't of its option's form,
/// said as `clap` says it, with an end of line. None exactly where they give options. A seed isn't told, since it is a
/// secret.
pub fn cause(alloc: Global, words: &[String]) -> Result<Option<String>, NoMemory>
    ensures { IfOk result (λ said. IsNone said ↔ IsSome (options_given (map string_bytes words.now))) }
{
    match options_of(alloc, words) {
        Ok(_) => Ok(None),
        Err(WordsFault::Usage) => Ok(Some(said(alloc, words)?)),
        Err(WordsFault::NoMemory) => Err(NoMemory),
    }
}

// What is said of words that give no options.
fn said(alloc: Global, words: &[String]) -> Result<String, NoMemory> {
    let Ok(command) = serve_command(alloc) else {
        return Err(NoMemory);
    };
    match command.try_get_matches_from(words) {
        Ok(matches) => match unfit_in(&texts_in(&matches)) {
            Some(unfit) => unfit.told(alloc),
            None => Ok(String::from_str(alloc, NAMES_ALONE)?),
        },
        Err(error) => Ok(format!(in alloc; "{error}")?),
    }
}

/// What is said of a value of `--allow` whose host is a prefix of no form, with an end of line.
pub fn cause_of_prefix(alloc: Global, host: &str, port: u16) -> Result<String, NoMemory> {
    Ok(format!(in alloc;
        "error: invalid value '{host}:{port}' for '--allow <HOST:PORT>': a prefix is an address, / and how many of its bits count\n"
    )?)
}

/// What is said of a value of `--admin` whose address is none, with an end of line.
pub fn cause_of_admin(alloc: Global, address: &str, port: u16) -> Result<String, NoMemory> {
    Ok(format!(in alloc; "error: invalid value '{address}:{port}' for '{ADMIN}': {PLACE}\n")?)
}

const ADMIN: &str = "--admin <ADDRESS:PORT>";

// What a value is, for each option.
const SEED: &str = "it is 64 hexadecimal digits";

const PORT: &str = "it is 1 to 65535";

const ADDRESS: &str = "it is a host, a colon and a port of 1 to 65535";

const PLACE: &str = "it is an IP address, a colon and a port, or a port alone, of 1 to 65535";

const LEVEL: &str = "it is error, warn or info";

const FORMAT: &str = "it is text or json";

const FACES: &str = "it is ascii or more";

const SECONDS: &str = "it is 0 to 1000000";

const NAME: &str = "it is 1 to 253 letters, digits, hyphens, dots and underscores";

// What is said where each value is of its form, and no options come of them.
const NAMES_ALONE: &str = "error: '--name <NAME>' has no meaning without '--page'\n";

// A value that isn't of its option's form, and what that is.
#[derive(Drop)]
struct Unfit<'a> {
    option: &'static str,
    value: &'a str,
    wanted: &'static str,
}

impl<'a> Unfit<'a> {
    fn told(&self, alloc: Global) -> Result<String, NoMemory> {
        let (option, value, wanted) = (self.option, self.value, self.wanted);
        Ok(format!(in alloc; "error: invalid value '{value}' for '{option}': {wanted}\n")?)
    }
}

// The first value that isn't of its option's form.
fn unfit_in<'a>(texts: &Texts<'a>) -> Option<Unfit<'a>> {
    let (seed, port) = (texts.seed, texts.port);
    let (recorder, level) = (texts.recorder, texts.level);
    unfit_one(
        seed.map(|_| "..."),
        seed.and_then(seed_of).is_some(),
        "--seed <HEX>",
        SEED,
    )
    .or_else(|| unfit_one(
        port,
        port.and_then(port_of).is_some(),
        "--port <PORT>",
        PORT,
    ))
    .or_else(|| unfit_one(
        recorder,
        recorder.and_then(address_of).is_some(),
        "--recorder <HOST:PORT>",
        ADDRESS,
    ))
    .or_else(|| unfit_one(
        level,
        level.and_then(level_of).is_some(),
        "--log <LEVEL>",
        LEVEL,
    ))
    .or_else(|| unfit_one(
        texts.format,
        texts.format.and_then(format_of).is_some(),
        "--log-format <FORMAT>",
        FORMAT,
    ))
    .or_else(|| unfit_one(
        texts.admin,
        texts.admin.and_then(place_of).is_some(),
        ADMIN,
        PLACE,
    ))
    .or_else(|| unfit_address(texts.allow.unwrap_or(&[])))
    .or_else(|| unfit_seconds(texts.silence, "--silence <SECONDS>"))
    .or_else(|| unfit_seconds(texts.linger, "--linger <SECONDS>"))
    .or_else(|| unfit_one(
        texts.faces,
        texts.faces.and_then(faces_of).is_some(),
        "--faces <SET>",
        FACES,
    ))
    .or_else(|| unfit_name(texts.names.unwrap_or(&[])))
}

// The value of an option, where it is there and doesn't fit.
fn unfit_one<'a>(
    value: Option<&'a str>,
    fits: bool,
    option: &'static str,
    wanted: &'static str,
) -> Option<Unfit<'a>> {
    match value {
        Some(value) if !fits => Some(Unfit {
            option,
            value,
            wanted,
        }),
        _ => None,
    }
}

// The value of an option that takes seconds, where it is there and doesn't fit.
fn unfit_seconds<'a>(value: Option<&'a str>, option: &'static str) -> Option<Unfit<'a>> {
    unfit_one(value, value.and_then(seconds_of).is_some(), option, SECONDS)
}

// The first value of `--allow` that is no host with its port.
fn unfit_address<'a>(values: &[&'a str]) -> Option<Unfit<'a>> {
    let value = values.iter().find(|value| address_of(value).is_none())?;
    unfit_one(Some(value), false, "--allow <HOST:PORT>", ADDRESS)
}

// The first value of `--name` that is no name.
fn unfit_name<'a>(values: &[&'a str]) -> Option<Unfit<'a>> {
    let value = values.iter().find(|value| !is_name(value))?;
    unfit_one(Some(value), false, "--name <NAME>", NAME)
}
