//! What stands behind a value.

ghost use Rattle.std.specs.Prelude.{◌≡◌, ◌<◌, ℕ, ◌+◌, ◌≤◌, List, length, take, slice_index, ◌≢◌, IfErr};
ghost use Rattle.guac_framing.specs.Answers.{IsStopped};
ghost use Rattle.guac_framing.specs.Standing.{BehindValue};
ghost use Rattle.guac_framing.specs.Behind.{IfOther, IfEnd};

use crate::limits::{MOST_ELEMENTS, MOST_INSTRUCTION};
use crate::next::{BadKind, Stop};

/// What a value is followed by.
#[derive(Clone, Copy)]
pub(crate) enum Separator {
    /// A `,`, and another element.
    Other,
    /// The `;` of the instruction.
    End,
}

/// Reads what follows element number `count`, counted from 1. There is room for a `;`.
pub(crate) fn read_separator(bytes: &[u8], at: usize, count: usize) -> Result<Separator, Stop>
    requires within { at ≤ length bytes.now }
    requires room { at + 1 ≤ 8192 }
    ensures other { IfOther result ((at < length bytes.now) × (slice_index bytes.now at ≡ 44) × (at + 4 ≤ 8192) × (count ≢ 128)) }
    ensures end { IfEnd result ((at < length bytes.now) × (slice_index bytes.now at ≡ 59)) }
    ensures stop { (values : List (List ℕ)) → BehindValue (take at bytes.now) values → length values ≡ count → IfErr result (IsStopped bytes.now) }
{
    if at == bytes.len() {
        return Err(Stop::More);
    }
    match bytes[at] {
        b';' => Ok(Separator::End),
        b',' if count == MOST_ELEMENTS => Err(Stop::bad(at, BadKind::TooMany)),
        b',' if at + 4 > MOST_INSTRUCTION => Err(Stop::bad(at, BadKind::TooLong)),
        b',' => Ok(Separator::Other),
        _ => Err(Stop::bad(at, BadKind::Separator)),
    }
}
