//! Instructions as text: framing, what they mean, and how they are written.

use anyhow::{Context, Result, bail};
use gate_model::Instr;
use guac_framing::{BadAt, Frame, Next, next_instruction, put_element, put_end, put_number};
use guac_instr::{read_client, read_hello, read_server, text_of, texts_of};
use std::alloc::Global;
use try_words::{bytes_of, first_word, push_escaped};

/// What stands at the front of the bytes: a whole instruction, by the number of its elements and of its
/// bytes, a part of one, or a bad byte.
pub fn front(alloc: Global, input: &str) -> Result<String> {
    let bytes = bytes_of(alloc, input)?;
    let text = match next_instruction(&bytes) {
        Next::Whole(frame, count) => {
            let elements = frame.count();
            format!(in alloc; "whole {elements} {count}")?
        }
        Next::More => "more".to_string(alloc)?,
        Next::Bad(BadAt { place, kind }) => format!(in alloc; "bad {place} {kind:?}")?,
    };
    Ok(text)
}

/// The elements of an instruction, each in brackets.
pub fn elements(alloc: Global, input: &str) -> Result<String> {
    let bytes = bytes_of(alloc, input)?;
    let Next::Whole(frame, _) = next_instruction(&bytes) else {
        bail!("not whole");
    };
    let mut text = String::new(alloc);
    for place in 0..frame.count() {
        text.push('[')?;
        push_escaped(&mut text, frame.element(place).as_bytes())?;
        text.push(']')?;
    }
    Ok(text)
}

/// An instruction of values that stand apart by `; `: `text é` or `number -1`.
pub fn written(alloc: Global, input: &str) -> Result<String> {
    let mut into = Vec::new(alloc);
    let mut first = true;
    for value in input.split("; ") {
        let put = match first_word(value) {
            ("text", text) => put_element(&mut into, first, text),
            ("number", number) => put_number(&mut into, first, number.parse::<i128>()?),
            _ => bail!("no value"),
        };
        put.ok().context("no memory")?;
        first = false;
    }
    put_end(&mut into).ok().context("no memory")?;
    let mut text = String::new(alloc);
    push_escaped(&mut text, &into)?;
    Ok(text)
}

/// What an instruction of a client means.
pub fn act(alloc: Global, input: &str) -> Result<String> {
    let bytes = bytes_of(alloc, input)?;
    let text = match read_client(&whole(&bytes)?) {
        Some(act) => format!(in alloc; "{act:?}")?,
        None => "nothing".to_string(alloc)?,
    };
    Ok(text)
}

/// What an instruction of a handshake says.
pub fn hello(alloc: Global, input: &str) -> Result<String> {
    let bytes = bytes_of(alloc, input)?;
    let hello = read_hello(&whole(&bytes)?);
    Ok(format!(in alloc; "{hello:?}")?)
}

/// The instruction that the gateway sends as this text, and its text, which a list of two of it has twice.
pub fn instruction(alloc: Global, input: &str) -> Result<String> {
    let bytes = bytes_of(alloc, input)?;
    let Some(instr) = read_server(&whole(&bytes)?) else {
        return Ok("nothing".to_string(alloc)?);
    };
    text_and_twice(alloc, instr)
}

fn text_and_twice(alloc: Global, instr: Instr) -> Result<String> {
    let one = one_text(alloc, &instr)?;
    let two = list_text(alloc, &[instr, instr])?;
    if two.strip_prefix(one.as_slice()) != Some(one.as_slice()) {
        bail!("two of them have another text");
    }
    let mut text = format!(in alloc; "{instr:?} ")?;
    push_escaped(&mut text, &one)?;
    Ok(text)
}

fn one_text(alloc: Global, instr: &Instr) -> Result<Vec<u8>> {
    let mut text = Vec::new(alloc);
    text_of(instr, &mut text).ok().context("no memory")?;
    Ok(text)
}

fn list_text(alloc: Global, list: &[Instr]) -> Result<Vec<u8>> {
    let mut text = Vec::new(alloc);
    texts_of(list, &mut text).ok().context("no memory")?;
    Ok(text)
}

// The instruction that the bytes are.
fn whole(bytes: &[u8]) -> Result<Frame<'_>> {
    match next_instruction(bytes) {
        Next::Whole(frame, _) => Ok(frame),
        _ => bail!("not whole"),
    }
}
