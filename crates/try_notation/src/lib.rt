//! The notation of bytes in files of rows, which the programs of rows read: text with escapes, and pieces
//! that are repeated (this project's own rule). Nothing else stands on it.
//!
//! - `\n`, `\r`, `\t` and `\e` are LF, CR, HT and ESC, and `\x` with two hexadecimal digits is a byte.
//! - `\\` and `\}` are the backslash and the brace.
//! - `\64{text}` is the text 64 times.
//! - A backslash at the end of a line takes its line feed away.
#![tactic(auto)]

use std::alloc::{AllocError, AllocFailed, Global};
use std::mem;
use thiserror::Error;

/// Why a text couldn't be read.
#[derive(Clone, Copy, Debug, PartialEq, Eq, Error)]
pub enum Unread {
    /// An escape that there isn't, or a piece that is repeated and doesn't end.
    #[error("a faulty escape")]
    Escape,
    /// Want of memory.
    #[error("no memory")]
    NoMemory,
}

impl From<AllocError> for Unread {
    fn from(_error: AllocError) -> Unread {
        Unread::NoMemory
    }
}

impl<T: Drop> From<AllocFailed<T>> for Unread {
    fn from(_error: AllocFailed<T>) -> Unread {
        Unread::NoMemory
    }
}

// Where in an escape a reader is.
#[derive(Clone, Copy)]
enum Place {
    Outside,
    Escape,
    Times(usize),
    Hexadecimal,
    Digit(u8),
}

// What stood before a piece that is repeated, and how often it is.
#[derive(Drop)]
struct Before {
    bytes: Vec<u8>,
    times: usize,
}

/// Reads bytes from texts and lines, one after the other.
#[derive(Drop)]
pub struct ByteReader {
    alloc: Global,
    bytes: Vec<u8>,
    place: Place,
    before: Option<Before>,
}

impl ByteReader {
    /// A reader that has read nothing.
    pub fn new(alloc: Global) -> ByteReader {
        ByteReader {
            alloc,
            bytes: Vec::new(alloc),
            place: Place::Outside,
            before: None,
        }
    }

    /// Reads a line, which is given without its line feed.
    pub fn line(&mut self, line: &str) -> Result<(), Unread> {
        self.text(line)?;
        match self.place {
            Place::Outside => self.bytes.push(b'\n')?,
            Place::Escape => self.place = Place::Outside,
            _ => return Err(Unread::Escape),
        }
        Ok(())
    }

    /// Reads a text.
    pub fn text(&mut self, text: &str) -> Result<(), Unread> {
        for byte in text.as_bytes() {
            self.take(*byte)?;
        }
        Ok(())
    }

    /// The bytes that were read.
    pub fn finish(self) -> Result<Vec<u8>, Unread> {
        match (self.place, self.before) {
            (Place::Outside, None) => Ok(self.bytes),
            _ => Err(Unread::Escape),
        }
    }

    fn take(&mut self, byte: u8) -> Result<(), Unread> {
        match self.place {
            Place::Outside if byte == b'\\' => self.place = Place::Escape,
            Place::Outside if byte == b'}' => self.end_piece()?,
            Place::Outside => self.bytes.push(byte)?,
            Place::Escape => self.escape(byte)?,
            Place::Times(times) if byte == b'{' => self.begin_piece(times),
            Place::Times(times) => self.place = Place::Times(with_digit(times, byte)?),
            Place::Hexadecimal => self.place = Place::Digit(hexadecimal(byte)?),
            Place::Digit(first) => self.put((first & 0xf) << 4 | hexadecimal(byte)?)?,
        }
        Ok(())
    }

    // The character after a backslash.
    fn escape(&mut self, byte: u8) -> Result<(), Unread> {
        match byte {
            b'n' => self.put(b'\n'),
            b'r' => self.put(b'\r'),
            b't' => self.put(b'\t'),
            b'e' => self.put(0x1b),
            b'\\' | b'}' => self.put(byte),
            b'x' => {
                self.place = Place::Hexadecimal;
                Ok(())
            }
            _ => {
                self.place = Place::Times(with_digit(0, byte)?);
                Ok(())
            }
        }
    }

    // Adds the byte that an escape stands for.
    fn put(&mut self, byte: u8) -> Result<(), Unread> {
        self.place = Place::Outside;
        self.bytes.push(byte)?;
        Ok(())
    }

    fn begin_piece(&mut self, times: usize) {
        let bytes = mem::replace(&mut self.bytes, Vec::new(self.alloc));
        self.before = Some(Before { bytes, times });
        self.place = Place::Outside;
    }

    // The end of a piece, or a brace where there is none.
    fn end_piece(&mut self) -> Result<(), Unread> {
        let Some(before) = self.before.take() else {
            self.bytes.push(b'}')?;
            return Ok(());
        };
        let piece = mem::replace(&mut self.bytes, before.bytes);
        for _ in 0..before.times {
            self.bytes.extend_from_slice(piece.as_slice())?;
        }
        Ok(())
    }
}

// The number with one digit more.
fn with_digit(number: usize, digit: u8) -> Result<usize, Unread> {
    match digit {
        b'0'..=b'9' => Ok(
            number
                .saturating_mul(10)
                .saturating_add((digit - b'0') as usize),
        ),
        _ => Err(Unread::Escape),
    }
}

// The value of a hexadecimal digit.
fn hexadecimal(digit: u8) -> Result<u8, Unread> {
    match digit {
        b'0'..=b'9' => Ok(digit - b'0'),
        b'a'..=b'f' => Ok(digit - b'a' + 10),
        b'A'..=b'F' => Ok(digit - b'A' + 10),
        _ => Err(Unread::Escape),
    }
}
