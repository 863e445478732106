//! What programs that try others share: how files of rows are run, words, numbers and bytes of rows, bytes as they
//! are printed, and numbers that look random (this project's own rule). Nothing else stands on it.
#![tactic(auto)]

mod marks;
mod random;
mod rows;

ghost use Rattle.std.specs.Prelude.{IsTrue};
ghost use Rattle.gate_model.specs.terminal.Sizes.{IsScreenSize};

use anyhow::{Context, Result, bail};
use gate_model::limits::{MOST_COLUMNS, MOST_ROWS};
use gate_model::{Asked, Share};
pub use marks::{from_last, split_at_first};
pub use random::Random;
pub use rows::run_rows;
use std::alloc::Global;
use try_notation::ByteReader;

/// The bytes of a text in the notation of `try_notation`.
pub fn bytes_of(alloc: Global, text: &str) -> Result<Vec<u8>> {
    let mut reader = ByteReader::new(alloc);
    reader.text(text)?;
    Ok(reader.finish()?)
}

/// The numbers of a text, apart by blanks.
pub fn numbers(alloc: Global, text: &str) -> Result<Vec<u32>> {
    let mut numbers = Vec::new(alloc);
    for word in text.split_whitespace() {
        numbers.push(word.parse::<u32>().context("no number")?)?;
    }
    Ok(numbers)
}

/// The first word, and what stands after the blank behind it.
pub fn first_word(text: &str) -> (&str, &str) {
    text.split_once(' ').unwrap_or((text, ""))
}

/// Whether a screen may have this size.
pub fn is_size(cols: u16, rows: u16) -> bool
    ensures { IsTrue result → IsScreenSize cols rows }
{
    1 <= cols && cols <= MOST_COLUMNS && 1 <= rows && rows <= MOST_ROWS
}

/// Columns and rows, and what stands after them.
pub fn size(text: &str) -> Result<(u16, u16, &str)> {
    let (cols, rest) = first_word(text);
    let (rows, rest) = first_word(rest);
    let cols = cols.parse::<u16>().context("no columns")?;
    let rows = rows.parse::<u16>().context("no rows")?;
    Ok((cols, rows, rest))
}

/// Adds bytes in hexadecimal.
pub fn push_hexadecimal(text: &mut String, bytes: &[u8]) -> Result<()> {
    for byte in bytes {
        write!(text, "{byte:02x}")?;
    }
    Ok(())
}

/// Adds bytes, of which those that aren't printed are escapes.
pub fn push_escaped(text: &mut String, bytes: &[u8]) -> Result<()> {
    for byte in bytes {
        match byte {
            0x20..=0x7e => text.push(char::from(*byte))?,
            _ => write!(text, "^{byte:02x}")?,
        }
    }
    Ok(())
}

/// The share mode of a word.
pub fn share_of(word: &str) -> Result<Share> {
    match word {
        "none" => Ok(Share::Nobody),
        "view" => Ok(Share::View),
        "control" => Ok(Share::Control),
        _ => bail!("no share mode"),
    }
}

/// What a joiner asks for.
pub fn asked_of(word: &str) -> Result<Asked> {
    match word {
        "owner" => Ok(Asked::Owner),
        "control" => Ok(Asked::Control),
        "view" => Ok(Asked::View),
        "keep" => Ok(Asked::Keep),
        _ => bail!("no role"),
    }
}
