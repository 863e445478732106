//! Which calls are made for the rows of a file.

use crate::{asking, options, pastes, sites};
use anyhow::{Result, bail};
use std::alloc::Global;

/// What the calls of a topic give on an input.
pub fn value(alloc: Global, topic: &str, input: &str) -> Result<String> {
    match topic {
        "options" => options::given(alloc, input),
        "causes" => options::said(alloc, input),
        "faults" => options::said_first(alloc, input),
        "prefixes" => options::said_of_prefix(alloc, input),
        "help" => options::is_in_help(alloc, input),
        "hosts" => asking::known(alloc, input),
        "heads" => asking::judged(alloc, input),
        "answers" => asking::answered(alloc, input),
        "fields" => sites::field(alloc, input),
        "fronts" => sites::front(alloc, input),
        "reads" => sites::read(alloc, input),
        "pastes" => pastes::typed(alloc, input),
        "pieces" => pastes::alike(alloc, input),
        _ => bail!("no such topic"),
    }
}
