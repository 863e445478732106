//! Which calls are made for the rows of a file.

use crate::{books, histories, keys, sequences, telnet, texts};
use anyhow::{Result, bail};
use std::alloc::Global;

/// What the calls of a topic give on an input.
pub fn value(alloc: Global, topic: &str, input: &str) -> Result<String> {
    match topic {
        "tokens" => telnet::tokens(alloc, input),
        "escapes" => telnet::escaped(alloc, input),
        "options" => telnet::answered(alloc, input),
        "sequences" => sequences::functions(alloc, input),
        "roles" => keys::role(alloc, input),
        "keys" => keys::sent(alloc, input),
        "modifiers" => keys::held(alloc, input),
        "books" => books::told(alloc, input),
        "histories" => histories::told(alloc, input),
        "framing" => texts::front(alloc, input),
        "elements" => texts::elements(alloc, input),
        "values" => texts::written(alloc, input),
        "acts" => texts::act(alloc, input),
        "hellos" => texts::hello(alloc, input),
        "instructions" => texts::instruction(alloc, input),
        _ => bail!("no such topic"),
    }
}
