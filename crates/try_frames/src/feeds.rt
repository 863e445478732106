//! Random bytes of a host: characters, control characters, and whole control sequences (ECMA-48), and some
//! that are cut off.

ghost use Rattle.std.specs.Prelude.{◌≡◌, ◌≤◌, ◌<◌};

use anyhow::Result;
use std::alloc::Global;
use try_words::Random;

/// The most bytes of a feed.
const MOST: usize = 40;

/// The final bytes of sequences with one parameter: they move, erase, insert, delete, scroll and repeat.
static FINALS: [u8; 22] = *b"ABCDEFGd`aeJKLMPSTX@bZ";

/// What isn't made of a random number: line ends and moves, RIS, the cursor saved and restored, shown and hidden,
/// insertion, wrapping, origin and reversed characters, characters outside ASCII, two of them wide, and colours of the
/// palette's upper 240.
static WHOLE: [&[u8]; 28] = [
    b"\r\n",
    b"\r",
    b"\n",
    b"\n\n\n",
    b"\x08",
    b"\t",
    b"\x1bM",
    b"\x1bD",
    b"\x1bE",
    b"\x1bc",
    b"\x1b7",
    b"\x1b8",
    b"\x1bH",
    b"\x1b[?25l",
    b"\x1b[?25h",
    b"\x1b[4h",
    b"\x1b[4l",
    b"\x1b[?7l",
    b"\x1b[?7h",
    b"\x1b[?6h",
    b"\x1b[?6l",
    b"\x1b[?5h",
    b"\x1b[r",
    b"\xc3\xa9",
    b"\xe4\xbd\xa0",
    b"\xf0\x9f\x98\x80",
    b"\x1b[38;5;196m",
    b"\x1b[48;5;238m",
];

/// Of how many characters and colours the feeds of a screen choose.
#[derive(Clone, Copy)]
pub struct Look {
    faces: u8,
    colours: u8,
}

impl Look {
    ghost use Rattle.std.specs.Prelude.{◌≤◌};

    /// 1 to 95 characters and 1 to 8 colours.
    pub fn new(random: &mut Random) -> Look {
        Look {
            faces: random.below(95) as u8,
            colours: random.below(8) as u8,
        }
    }

    // A printable character.
    fn face(self, random: &mut Random) -> u8 {
        b' ' + (random.below(1 + self.faces as u32) % 95) as u8
    }

    // The last digit of a colour.
    fn colour(self, random: &mut Random) -> u8 {
        b'0' + (random.below(1 + self.colours as u32) % 8) as u8
    }
}

/// 1 to 40 bytes.
pub fn feed(alloc: Global, random: &mut Random, look: Look) -> Result<Vec<u8>> {
    let mut bytes = Vec::with_capacity(alloc, MOST)?;
    for _ in 0..1 + random.below(6) {
        push_piece(&mut bytes, random, look)?;
    }
    if random.below(4) == 0 {
        bytes.truncate(1 + random.below(12) as usize);
    }
    bytes.truncate(MOST);
    Ok(bytes)
}

fn push_piece(bytes: &mut Vec<u8>, random: &mut Random, look: Look) -> Result<()> {
    match random.below(12) {
        0..=4 => push_text(bytes, random, look),
        5 | 6 => push_colour(bytes, random, look),
        7 => push_pair(bytes, random),
        8 | 9 => push_whole(bytes, random),
        _ => push_sequence(bytes, random),
    }
}

// 1 to 8 printable characters.
fn push_text(bytes: &mut Vec<u8>, random: &mut Random, look: Look) -> Result<()> {
    for _ in 0..1 + random.below(8) {
        bytes.push(look.face(random))?;
    }
    Ok(())
}

// Selects a colour, or none, underlined or reversed characters (SGR).
fn push_colour(bytes: &mut Vec<u8>, random: &mut Random, look: Look) -> Result<()> {
    bytes.extend_from_slice(b"\x1b[")?;
    match random.below(8) {
        0 => bytes.push(b'0')?,
        1 => bytes.push(b'4')?,
        2 => bytes.push(b'7')?,
        3 => bytes.push(b'1')?,
        4 | 5 => bytes.extend_from_slice(&[b'4', look.colour(random)])?,
        _ => bytes.extend_from_slice(&[b'3', look.colour(random)])?,
    }
    bytes.push(b'm')?;
    Ok(())
}

fn push_whole(bytes: &mut Vec<u8>, random: &mut Random) -> Result<()> {
    bytes.extend_from_slice(WHOLE[random.below(28) as usize])?;
    Ok(())
}

// A place of the cursor, or two margins.
fn push_pair(bytes: &mut Vec<u8>, random: &mut Random) -> Result<()> {
    let last = if random.below(4) == 0 { b'r' } else { b'H' };
    bytes.extend_from_slice(b"\x1b[")?;
    push_number(bytes, random.below(7))?;
    bytes.push(b';')?;
    push_number(bytes, random.below(14))?;
    bytes.push(last)?;
    Ok(())
}

// A sequence with one parameter, mostly a small one.
fn push_sequence(bytes: &mut Vec<u8>, random: &mut Random) -> Result<()> {
    bytes.extend_from_slice(b"\x1b[")?;
    if random.below(3) != 0 {
        push_number(bytes, random.below(4))?;
    }
    bytes.push(FINALS[random.below(22) as usize])?;
    Ok(())
}

// A number below 100.
fn push_number(bytes: &mut Vec<u8>, number: u32) -> Result<()>
    requires { number < 100 }
{
    if 10 <= number {
        bytes.push(b'0' + (number / 10) as u8)?;
    }
    bytes.push(b'0' + (number % 10) as u8)?;
    Ok(())
}
