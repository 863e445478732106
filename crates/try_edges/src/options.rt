//! The words of `serve`.

use anyhow::{Context, Result};
use gate_model::Text;
use serve_options::{
    Allowed, LogFormat, Names, Options, WordsFault, cause, cause_of_prefix, help, options_of,
};
use std::alloc::Global;
use try_words::{first_word, push_escaped, push_hexadecimal};

// What the word SEED stands for.
const SEED: &str = "000102030405060708090a0b0c0d0e0f101112131415161718191a1b1c1d1eFF";

// The words of a line, of which SEED is that seed.
fn words_of(alloc: Global, line: &str) -> Result<Vec<String>> {
    let mut words = Vec::new(alloc);
    for word in line.split_whitespace() {
        let text = if word == "SEED" { SEED } else { word };
        words.push(String::from_str(alloc, text)?)?;
    }
    Ok(words)
}

/// The options that the words give: what isn't `serve`'s own, each behind its name. Words that give none are `usage`.
pub fn given(alloc: Global, input: &str) -> Result<String> {
    match options_of(alloc, &words_of(alloc, input)?) {
        Ok(options) => told(alloc, &options),
        Err(WordsFault::Usage) => Ok("usage".to_string(alloc)?),
        Err(WordsFault::NoMemory) => Err(anyhow::anyhow!("no memory")),
    }
}

fn told(alloc: Global, options: &Options) -> Result<String> {
    let mut text = String::new(alloc);
    push_hexadecimal(&mut text, &options.seed)?;
    write!(text, " port {} log {:?}", options.port, options.level)?;
    if let LogFormat::Json = options.format {
        text.push_str(" json")?;
    }
    push_address(&mut text, "recorder", &options.recorder)?;
    push_address(&mut text, "admin", &options.admin)?;
    push_allowed(&mut text, &options.allow)?;
    write!(
        text,
        " silence {} linger {} faces {:?}",
        options.silence, options.linger, options.faces
    )?;
    push_page(&mut text, &options.page)?;
    Ok(text)
}

fn push_address(text: &mut String, name: &str, address: &Option<(Text, u16)>) -> Result<()> {
    if let Some((host, port)) = address {
        write!(text, " {name} {} {port}", host.as_str())?;
    }
    Ok(())
}

fn push_allowed(text: &mut String, allow: &Option<Allowed>) -> Result<()> {
    let Some(allow) = allow else {
        return Ok(());
    };
    text.push_str(" allow")?;
    for (host, port) in allow.as_slice() {
        write!(text, " {} {port}", host.as_str())?;
    }
    Ok(())
}

fn push_page(text: &mut String, page: &Option<Names>) -> Result<()> {
    let Some(names) = page else {
        return Ok(());
    };
    text.push_str(" page")?;
    for name in names.as_slice() {
        write!(text, " {}", name.as_str())?;
    }
    Ok(())
}

/// What is said of words that give no options, and `nothing` of others.
pub fn said(alloc: Global, input: &str) -> Result<String> {
    let mut text = String::new(alloc);
    match cause_of(alloc, input)? {
        Some(cause) => push_escaped(&mut text, cause.as_str().as_bytes())?,
        None => text.push_str("nothing")?,
    }
    Ok(text)
}

/// The first line of that.
pub fn said_first(alloc: Global, input: &str) -> Result<String> {
    let cause = cause_of(alloc, input)?.context("nothing is said")?;
    let first = cause.as_str().lines().next().context("no line")?;
    Ok(first.to_string(alloc)?)
}

fn cause_of(alloc: Global, input: &str) -> Result<Option<String>> {
    cause(alloc, &words_of(alloc, input)?)
        .ok()
        .context("no memory")
}

/// What is said of a value of `--allow`, a host and a port apart by a blank, whose prefix has no form.
pub fn said_of_prefix(alloc: Global, input: &str) -> Result<String> {
    let (host, port) = first_word(input);
    let cause = cause_of_prefix(alloc, host, port.parse::<u16>().context("no port")?)
        .ok()
        .context("no memory")?;
    let mut text = String::new(alloc);
    push_escaped(&mut text, cause.as_str().as_bytes())?;
    Ok(text)
}

/// Whether the help has a text.
pub fn is_in_help(alloc: Global, input: &str) -> Result<String> {
    let text = help(alloc).ok().context("no memory")?;
    let found = if text.as_str().contains(input) {
        "told"
    } else {
        "not told"
    };
    Ok(found.to_string(alloc)?)
}
