//! The length of an element.

ghost use Rattle.std.specs.Prelude.{◌≡◌, ℕ, ◌+◌, ◌<◌, ◌≤◌, List, [], length, take, IfOk, IfErr};
ghost use Rattle.guac_framing.specs.Answers.{IsStopped};
ghost use Rattle.guac_framing.specs.Standing.{InLength, InValue};

use crate::limits::{MOST_DIGITS, MOST_INSTRUCTION};
use crate::next::{BadKind, Stop};

/// Reads the digits of a length and the `.` behind them, and answers the number and the place behind the
/// `.`. There is room for a whole element: with the bytes before `start` its shortest form is within the
/// limit.
pub(crate) fn read_length(bytes: &[u8], start: usize) -> Result<(usize, usize), Stop>
    requires within { start ≤ length bytes.now }
    requires room { start + 3 ≤ 8192 }
    ensures end { IfOk result (λ r. (start < r.1) × (r.1 ≤ length bytes.now) × (r.1 + r.0 + 1 ≤ 8192)) }
    ensures value { (values : List (List ℕ)) → InLength (take start bytes.now) values [] → IfOk result (λ r. InValue (take r.1 bytes.now) values [] r.0) }
    ensures stop { (values : List (List ℕ)) → InLength (take start bytes.now) values [] → IfErr result (IsStopped bytes.now) }
{
    let mut length = 0;
    for at in start..bytes.len() {
        let byte = bytes[at];
        if byte.is_ascii_digit() {
            if at - start == MOST_DIGITS {
                return Err(Stop::bad(at, BadKind::Length));
            }
            length = length * 10 + usize::from(byte - b'0');
            if at + length + 3 > MOST_INSTRUCTION {
                return Err(Stop::bad(at, BadKind::TooLong));
            }
        } else if byte == b'.' && at > start {
            return Ok((length, at + 1));
        } else {
            return Err(Stop::bad(at, BadKind::Digit));
        }
    }
    Err(Stop::More)
}
