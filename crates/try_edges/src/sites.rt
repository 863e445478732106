//! Whether another site's page asks.

use anyhow::{Context, Result, bail};
use fetch_site::{Front, is_foreign, look};
use gate_outside::MemSource;
use std::alloc::Global;
use try_words::{bytes_of, first_word};

/// Whether a field, `NAME: VALUE`, says that another site's page asks.
pub fn field(alloc: Global, input: &str) -> Result<String> {
    let (name, value) = input.split_once(':').context("no field")?;
    let foreign = is_foreign(name.as_bytes(), value.trim().as_bytes());
    Ok(if foreign { "foreign" } else { "own" }.to_string(alloc)?)
}

/// What stands at the front of a connection with these bytes, however they come: one by one, by seven, or together.
pub fn front(alloc: Global, input: &str) -> Result<String> {
    let bytes = bytes_of(alloc, input)?;
    let (first, _) = looked(alloc, &bytes, 1, 0)?;
    for most in [7, 4_096] {
        let (front, read) = looked(alloc, &bytes, most, 0)?;
        if front != first || bytes.len() < read {
            bail!("another front in pieces of {most}");
        }
    }
    Ok(format!(in alloc; "{first:?}")?)
}

/// The same of bytes whose reads give so many, of which the one with this number fails, and how much was read:
/// `MOST NUMBER BYTES`.
pub fn read(alloc: Global, input: &str) -> Result<String> {
    let (most, rest) = first_word(input);
    let (number, text) = first_word(rest);
    let bytes = bytes_of(alloc, text)?;
    let most = most.parse::<usize>().context("no size of a read")?;
    let number = number.parse::<u64>().context("no number of a read")?;
    let (front, read) = looked(alloc, &bytes, most, number)?;
    Ok(format!(in alloc; "{front:?} {read}")?)
}

fn looked(alloc: Global, bytes: &[u8], most: usize, fail: u64) -> Result<(Front, usize)> {
    let mut source = MemSource::new(bytes.to_vec(alloc)?, most.max(1), [fail].to_vec(alloc)?);
    let mut room = Vec::new(alloc);
    let front = look(&mut source, &mut room).ok().context("no memory")?;
    Ok((front, room.len()))
}
