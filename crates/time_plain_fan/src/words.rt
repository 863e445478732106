//! The words of the program.

use anyhow::{Context, Result};
use std::env;
use std::rt::Env;

/// What the words ask for.
#[derive(Drop)]
pub struct Words {
    pub port: u16,
    pub topics: u32,
    /// How many viewers each topic has.
    pub viewers: u32,
    pub bytes: u32,
    /// How often a second the text changes.
    pub frames: u32,
    pub seconds: u32,
}

/// What the program's words ask for, if there are any.
pub fn words_of(rt: &(impl AllocGlobal + Env)) -> Result<Option<Words>> {
    let mut words = env::args(rt)?.skip(1);
    let Some(port) = words.next() else {
        return Ok(None);
    };
    let topics = words.next().context("how many topics?")?;
    let viewers = words.next().context("how many viewers?")?;
    let bytes = words.next().context("how many bytes?")?;
    let frames = words.next().context("how many frames a second?")?;
    let seconds = words.next().context("how many seconds?")?;
    Ok(Some(Words {
        port: port.as_str().parse::<u16>()?,
        topics: topics.as_str().parse::<u32>()?,
        viewers: viewers.as_str().parse::<u32>()?,
        bytes: bytes.as_str().parse::<u32>()?,
        frames: frames.as_str().parse::<u32>()?,
        seconds: seconds.as_str().parse::<u32>()?,
    }))
}
