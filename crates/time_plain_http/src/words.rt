//! The words of the program.

use anyhow::{Context, Result};
use std::env;
use std::rt::Env;

/// What the words ask for.
#[derive(Drop)]
pub struct Words {
    pub port: u16,
    pub connections: u32,
    pub bytes: u32,
}

/// What the program's words ask for, if there are any.
pub fn words_of(rt: &(impl AllocGlobal + Env)) -> Result<Option<Words>> {
    let mut words = env::args(rt)?.skip(1);
    let Some(port) = words.next() else {
        return Ok(None);
    };
    let connections = words.next().context("how many connections?")?;
    let bytes = words.next().context("how many bytes?")?;
    Ok(Some(Words {
        port: port.as_str().parse::<u16>()?,
        connections: connections.as_str().parse::<u32>()?,
        bytes: bytes.as_str().parse::<u32>()?,
    }))
}
