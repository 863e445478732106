//! A seed that isn't among the words.

use crate::saying::say;
use std::io::Read;
use std::str;

/// How many bytes are read at most: the digits of a seed, and the end of their line.
const MOST: usize = 65;

/// The words, with the digits that stand on standard input in the place of the seed `-`, as in `--seed -` or `--seed=-`.
/// The status is 2 where they aren't text, and 6 where memory is wanting.
pub(crate) fn read_in(rt: &HostRuntime, mut words: Vec<String>) -> Result<Vec<String>, u8> {
    let Some((at, front)) = place_of(&words) else {
        return Ok(words);
    };
    let mut digits = [0u8; MOST];
    let count = read_all(&mut rt.reader(), &mut digits);
    let word = word_of(rt, front, digits.get(..count).unwrap_or(&[]))?;
    if let Some(place) = words.get_mut(at) {
        *place = word;
    }
    Ok(words)
}

// Where the seed `-` stands behind `serve`, and what stands before the seed in that word.
fn place_of(words: &[String]) -> Option<(usize, &'static str)> {
    if words.first()?.as_str() != "serve" {
        return None;
    }
    let mut asked = false;
    for (at, word) in words.iter().enumerate() {
        match word.as_str() {
            "--seed=-" => return Some((at, "--seed=")),
            "-" if asked => return Some((at, "")),
            word => asked = word == "--seed",
        }
    }
    None
}

// Reads until the room is full, or no more comes.
fn read_all<R: Read>(reader: &mut R, room: &mut [u8]) -> usize {
    let mut count = 0usize;
    for _ in 0..MOST {
        let Some(rest) = room.get_mut(count..) else {
            return count;
        };
        match reader.read(rest) {
            Ok(more) if more > 0 => count = count.saturating_add(more),
            _ => return count,
        }
    }
    count
}

// The word of these digits.
fn word_of<R: AllocGlobal + Eprint>(rt: &R, front: &str, digits: &[u8]) -> Result<String, u8> {
    let Ok(text) = str::from_utf8(digits.trim_ascii_end()) else {
        say(rt, "error: the seed on standard input is no text");
        return Err(2);
    };
    format!(in rt.alloc(); "{front}{text}").map_err(|_| 6)
}
