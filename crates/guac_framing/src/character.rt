//! One character of a value, in UTF-8 (RFC 3629, section 4).

ghost use Rattle.std.specs.Prelude.{◌≡◌, ℕ, suc, ◌+◌, ◌<◌, ◌≤◌, List, [], ◌∷◌, length, take, slice_index, IfOk, IfErr, IfSome, IfNone};
ghost use Rattle.guac_framing.specs.Answers.{IsStopped};
ghost use Rattle.guac_framing.specs.Begun.{Begins, BeginsNone};
ghost use Rattle.guac_framing.specs.Standing.{InValue};
ghost use Rattle.guac_framing.specs.Scanned.{EndsCharacter};

use crate::limits::MOST_INSTRUCTION;
use crate::next::{BadKind, Stop};

/// What is due of a character that has begun: how many bytes, and the range of the next.
#[derive(Clone, Copy)]
struct Due {
    bytes: usize,
    least: u8,
    most: u8,
}

impl Due {
    const fn new(bytes: usize, least: u8, most: u8) -> Due
        ensures { result ≡ record { bytes = bytes; least = least; most = most } }
    {
        Due { bytes, least, most }
    }
}

// What is due behind a character's first byte; none where no character begins so.
fn due_after(lead: u8) -> Option<Due>
    ensures few { IfSome result (λ d. d.bytes ≤ 3) }
    ensures some { IfSome result (λ d. Begins (lead ∷ []) d.bytes d.least d.most) }
    ensures none { IfNone result (BeginsNone lead) }
{
    match lead {
        0x00..=0x7F => Some(Due::new(0, 0x80, 0xBF)),
        0xC2..=0xDF => Some(Due::new(1, 0x80, 0xBF)),
        0xE0 => Some(Due::new(2, 0xA0, 0xBF)),
        0xED => Some(Due::new(2, 0x80, 0x9F)),
        0xE1..=0xEF => Some(Due::new(2, 0x80, 0xBF)),
        0xF0 => Some(Due::new(3, 0x90, 0xBF)),
        0xF1..=0xF3 => Some(Due::new(3, 0x80, 0xBF)),
        0xF4 => Some(Due::new(3, 0x80, 0x8F)),
        _ => None,
    }
}

/// Reads the character at a place, behind which so many are left of the value, and answers the place
/// behind it. There is room for it in one byte, and for the others and the `;`.
pub(crate) fn read_character(bytes: &[u8], at: usize, left: usize) -> Result<usize, Stop>
    requires within { at ≤ length bytes.now }
    requires room { at + left + 2 ≤ 8192 }
    ensures end { IfOk result (λ end. (end ≤ length bytes.now) × (end + left + 1 ≤ 8192)) }
    ensures character { IfOk result (EndsCharacter bytes.now at) }
    ensures stop { (values : List (List ℕ)) (chars : List ℕ) → InValue (take at bytes.now) values chars (suc left) → IfErr result (IsStopped bytes.now) }
{
    if at == bytes.len() {
        return Err(Stop::More);
    }
    let Some(due) = due_after(bytes[at]) else {
        return Err(Stop::bad(at, BadKind::Utf8));
    };
    if at + due.bytes + left + 2 > MOST_INSTRUCTION {
        return Err(Stop::bad(at, BadKind::TooLong));
    }
    read_due(bytes, at, due)
}

// Reads what is due of the character that begins at `start`, and answers the place behind it.
fn read_due(bytes: &[u8], start: usize, due: Due) -> Result<usize, Stop>
    requires within { start < length bytes.now }
    requires room { start + due.bytes + 2 ≤ 8192 }
    requires begun { Begins (slice_index bytes.now start ∷ []) due.bytes due.least due.most }
    ensures end { IfOk result (λ end. (end ≤ length bytes.now) × (end ≡ start + due.bytes + 1)) }
    ensures character { IfOk result (EndsCharacter bytes.now start) }
    ensures stop { (values : List (List ℕ)) (chars : List ℕ) (left : ℕ) → InValue (take start bytes.now) values chars (suc left)
        → start + due.bytes + left + 2 ≤ 8192 → IfErr result (IsStopped bytes.now) }
{
    let mut at = start + 1;
    let mut due = due;
    while due.bytes > 0 {
        if at == bytes.len() {
            return Err(Stop::More);
        }
        if bytes[at] < due.least || due.most < bytes[at] {
            return Err(Stop::bad(at, BadKind::Utf8));
        }
        due = Due {
            bytes: due.bytes - 1,
            least: 0x80,
            most: 0xBF,
        };
        at += 1;
    }
    Ok(at)
}
