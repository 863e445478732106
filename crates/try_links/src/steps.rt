//! What happens to a session and its links, in turn.

use crate::halls::Hall;
use anyhow::{Context, Result};
use share_links::LinkTable;
use std::alloc::Global;
use std::sync::{Mutex, Wait};
use try_words::{asked_of, bytes_of, first_word, share_of};

/// What each step gives, behind each other. Before the steps, which ` | ` separates, stands the session's share mode.
pub fn answers<R: Wait>(rt: &R, alloc: Global, input: &str) -> Result<String> {
    let (mode, steps) = input.split_once(" | ").context("no step")?;
    let links = Mutex::new(LinkTable::new(alloc));
    let mut hall = Hall::new(alloc, share_of(mode)?, &links)?;
    let mut text = String::new(alloc);
    for step in steps.split(" | ") {
        if !text.is_empty() {
            text.push_str(" | ")?;
        }
        take(rt, alloc, &mut hall, step, &mut text)?;
    }
    Ok(text)
}

// `join ROLE` joins by the link, `enter ROLE` by the session's name; `leave`, `read`, `say`, `known`, `spend` and `forget`
// are those calls of a hall. Anything else is a request: a method, a target and a body.
fn take<R: Wait>(
    rt: &R,
    alloc: Global,
    hall: &mut Hall<'_>,
    step: &str,
    text: &mut String,
) -> Result<()> {
    let (word, rest) = first_word(step);
    match word {
        "join" => hall.join(rt, alloc, true, asked_of(rest)?, text),
        "enter" => hall.join(rt, alloc, false, asked_of(rest)?, text),
        "leave" => hall.leave(rt, text),
        "read" => hall.read(rt, alloc, text),
        "known" => hall.known(rt, text),
        "spend" => hall.spend(rt, text),
        "say" => {
            hall.say(rt, alloc)?;
            Ok(text.push_str("said")?)
        }
        "forget" => {
            hall.forget();
            Ok(text.push_str("gone")?)
        }
        _ => {
            let (target, body) = first_word(rest);
            hall.ask(rt, alloc, word, target, &bytes_of(alloc, body)?, text)
        }
    }
}
