//! The reader's answer.

ghost use Rattle.std.specs.Prelude.{◌≡◌};

use crate::Frame;

/// What the front of some bytes is.
#[derive(Drop)]
pub enum Next<'a> {
    /// The first bytes, of this number, are an instruction with these elements.
    Whole(Frame<'a>, usize),
    /// No front is an instruction, and some continuation makes one.
    More,
    /// No continuation has an instruction at its front.
    Bad(BadAt),
}

/// The first byte through which no continuation has an instruction at its front.
#[derive(Clone, Copy, Debug, PartialEq, Eq)]
pub struct BadAt {
    /// How many bytes stand before it.
    pub place: usize,
    /// Why it is bad.
    pub kind: BadKind,
}

/// Why a byte can't stand at its place.
#[derive(Clone, Copy, Debug, PartialEq, Eq)]
pub enum BadKind {
    /// There is no digit where a length must start, or neither a digit nor `.` inside a length.
    Digit,
    /// A length has a sixth digit.
    Length,
    /// Neither `,` nor `;` follows a value.
    Separator,
    /// UTF-8 forbids the byte at its place.
    Utf8,
    /// A `,` follows element 128.
    TooMany,
    /// None of the others holds, and the shortest completion is over 8,192 bytes.
    TooLong,
}

/// Why a part of an instruction isn't read to its end.
#[derive(Clone, Copy)]
pub(crate) enum Stop {
    More,
    Bad(BadAt),
}

impl Stop {
    pub(crate) fn bad(place: usize, kind: BadKind) -> Stop
        ensures { result ≡ Stop.Bad record { place = place; kind = kind } }
    {
        Stop::Bad(BadAt { place, kind })
    }
}
