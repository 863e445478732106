//! The command that reads the words.

ghost use Rattle.std.specs.Prelude.{◌≡◌, IfOk, false};
ghost use Rattle.clap.specs.Words.{app_of, rule_of};
ghost use Rattle.serve_options.specs.Given.{serve_command, with_faces, with_limits, with_notes, with_page, with_place, with_value};

use clap::{Arg, ArgAction, Command};
use gate_model::NoMemory;
use std::alloc::{AllocError, Global};

/// The command that reads the words behind `serve`.
pub(crate) fn serve_command<'a>(alloc: Global) -> Result<Command<'a>, AllocError>
    ensures { IfOk result (λ command. app_of command ≡ serve_command) }
{
    let bare = Command::new(alloc, "guacgate serve").no_binary_name(true);
    let placed = with_place(alloc, bare)?;
    let noted = with_notes(alloc, placed)?;
    let limited = with_limits(alloc, noted)?;
    let shown = with_faces(alloc, limited)?;
    with_page(alloc, shown)
}

// The command with the options of where it listens, under which secret, and where sessions are recorded.
fn with_place<'a>(alloc: Global, command: Command<'a>) -> Result<Command<'a>, AllocError>
    ensures { IfOk result (λ more. app_of more ≡ with_place (app_of command.entry)) }
{
    let seed = option(
        alloc,
        "seed",
        "HEX",
        "the secret under which IDs are drawn: 64 hexadecimal digits",
    )
    .required(true);
    let port = option(alloc, "port", "PORT", "the port to listen on, 1 to 65535").default_value(
        "4822",
    );
    let recorder = option(
        alloc,
        "recorder",
        "HOST:PORT",
        "where each session is recorded",
    );
    command.arg(seed)?.arg(port)?.arg(recorder)
}

// The command with the options of what is noted, and where the operator asks.
fn with_notes<'a>(alloc: Global, command: Command<'a>) -> Result<Command<'a>, AllocError>
    ensures { IfOk result (λ more. app_of more ≡ with_notes (app_of command.entry)) }
{
    let level = option(
        alloc,
        "log",
        "LEVEL",
        "how much is noted on standard error: error, warn or info",
    )
    .default_value("warn");
    let format = option(
        alloc,
        "log-format",
        "FORMAT",
        "how notes are written, a line for each: text, or json",
    )
    .default_value("text");
    let admin = option(
        alloc,
        "admin",
        "ADDRESS:PORT",
        "where the operator asks what runs, and ends sessions; a port alone is one of 127.0.0.1",
    );
    command.arg(level)?.arg(format)?.arg(admin)
}

// The command with the options of what may be dialed, and who is given up.
fn with_limits<'a>(alloc: Global, command: Command<'a>) -> Result<Command<'a>, AllocError>
    ensures { IfOk result (λ more. app_of more ≡ with_limits (app_of command.entry)) }
{
    let allow = option(
        alloc,
        "allow",
        "HOST:PORT",
        "what alone may be dialed, once for each: a name, an address, a prefix as 10.0.0.0/8, or *",
    )
    .action(ArgAction::Append);
    let silence = option(
        alloc,
        "silence",
        "SECONDS",
        "after how long a viewer or a host is given up that sends or takes nothing; 0 is never",
    )
    .default_value("0");
    let linger = option(
        alloc,
        "linger",
        "SECONDS",
        "after how long a session without viewers is closed; 0 is never",
    )
    .default_value("0");
    command.arg(allow)?.arg(silence)?.arg(linger)
}

// The command with the option of what sessions show.
fn with_faces<'a>(alloc: Global, command: Command<'a>) -> Result<Command<'a>, AllocError>
    ensures { IfOk result (λ more. app_of more ≡ with_faces (app_of command.entry)) }
{
    let faces = option(
        alloc,
        "faces",
        "SET",
        "which characters sessions show: ascii, or more, with line drawing, accents and signs",
    )
    .default_value("ascii");
    command.arg(faces)
}

// The command with the options of the page.
fn with_page<'a>(alloc: Global, command: Command<'a>) -> Result<Command<'a>, AllocError>
    ensures { IfOk result (λ more. app_of more ≡ with_page (app_of command.entry)) }
{
    let page = Arg::new(alloc, "page")
        .long("page")
        .action(ArgAction::SetTrue)
        .help(
            "hands out the page, to whom asks for this machine by an address, localhost or a --name",
        );
    let name = option(
        alloc,
        "name",
        "NAME",
        "a name of this machine by which the page may be asked for, once for each",
    )
    .action(ArgAction::Append);
    command.arg(page)?.arg(name)
}

// An option with one value.
fn option<'a>(alloc: Global, name: &'a str, value: &'a str, help: &'a str) -> Arg<'a>
    ensures rule { rule_of result ≡ with_value name.now }
    ensures own { result.global ≡ false }
{
    Arg::new(alloc, name)
        .long(name)
        .value_name(value)
        .help(help)
}

/// What `serve --help` tells.
pub fn help(alloc: Global) -> Result<String, NoMemory> {
    let words = ["--help"];
    let Ok(command) = serve_command(alloc) else {
        return Err(NoMemory);
    };
    match command.try_get_matches_from(&words) {
        Ok(_) => Ok(String::new(alloc)),
        Err(error) => Ok(format!(in alloc; "{error}")?),
    }
}
