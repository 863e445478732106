//! Bytes of a Telnet host: tokens, doubled bytes and the answers to options.

ghost use Rattle.std.specs.Prelude.{◌<◌};

use anyhow::{Context, Result, bail};
use gate_model::Token;
use std::alloc::Global;
use telnet_options::Options;
use telnet_wire::{Wire, escape};
use try_words::{bytes_of, push_hexadecimal, size};

/// The tokens of a stream, which have to be the same however it is cut.
pub fn tokens(alloc: Global, input: &str) -> Result<String> {
    let stream = bytes_of(alloc, input)?;
    let whole = tokens_of(alloc, &stream, 1000)?;
    for most in [1, 2, 3] {
        if tokens_of(alloc, &stream, most)?.as_str() != whole.as_str() {
            bail!("other tokens in pieces of {most}");
        }
    }
    Ok(whole)
}

fn tokens_of(alloc: Global, stream: &[u8], most: usize) -> Result<String>
    requires { 0 < most }
{
    let mut wire = Wire::new();
    let mut text = String::new(alloc);
    for piece in stream.chunks(most) {
        push_tokens(&mut text, &mut wire, alloc, piece)?;
    }
    Ok(text)
}

// Adds the tokens that a piece completes.
fn push_tokens(text: &mut String, wire: &mut Wire, alloc: Global, piece: &[u8]) -> Result<()> {
    let tokens = wire.feed(alloc, piece).ok().context("no memory")?;
    for token in tokens.as_slice() {
        push_token(text, token)?;
    }
    Ok(())
}

fn push_token(text: &mut String, token: &Token) -> Result<()> {
    if !text.is_empty() {
        text.push_str(", ")?;
    }
    match token {
        Token::Byte(byte) => write!(text, "byte {byte:02x}")?,
        Token::Do(option) => write!(text, "do {option}")?,
        Token::Dont(option) => write!(text, "dont {option}")?,
        Token::Will(option) => write!(text, "will {option}")?,
        Token::Wont(option) => write!(text, "wont {option}")?,
        Token::Single(command) => write!(text, "single {command}")?,
        Token::Sub(bytes) => push_sub(text, bytes.as_slice())?,
    }
    Ok(())
}

fn push_sub(text: &mut String, bytes: &[u8]) -> Result<()> {
    write!(text, "sub {}", bytes.len())?;
    if (1..=16).contains(&bytes.len()) {
        text.push(' ')?;
        push_hexadecimal(text, bytes)?;
    }
    Ok(())
}

/// The bytes with each 255 doubled, behind a byte that is there before.
pub fn escaped(alloc: Global, input: &str) -> Result<String> {
    let mut into = [1].to_vec(alloc)?;
    escape(&bytes_of(alloc, input)?, &mut into)
        .ok()
        .context("no memory")?;
    let mut text = String::new(alloc);
    push_hexadecimal(&mut text, &into)?;
    Ok(text)
}

/// The answers to the options of a stream, on a screen of this size.
pub fn answered(alloc: Global, input: &str) -> Result<String> {
    let (cols, rows, stream) = size(input)?;
    let stream = bytes_of(alloc, stream)?;
    let tokens = Wire::new().feed(alloc, &stream).ok().context("no memory")?;
    answers_to(alloc, tokens.as_slice(), cols, rows)
}

fn answers_to(alloc: Global, tokens: &[Token], cols: u16, rows: u16) -> Result<String> {
    let mut options = Options::new();
    let mut into = Vec::new(alloc);
    for token in tokens {
        options
            .take(token, cols, rows, "linux", &mut into)
            .ok()
            .context("no memory")?;
    }
    let mut text = String::new(alloc);
    push_hexadecimal(&mut text, &into)?;
    Ok(text)
}
