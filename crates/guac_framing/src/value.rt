//! The value of an element.

ghost use Rattle.std.specs.Prelude.{◌≡◌, ℕ, ◌+◌, ◌≤◌, List, [], length, take, IfOk, IfErr};
ghost use Rattle.guac_framing.specs.Answers.{IsStopped};
ghost use Rattle.guac_framing.specs.Scanned.{HasChars};
ghost use Rattle.guac_framing.specs.Standing.{InValue};

use crate::character::read_character;
use crate::next::Stop;

/// Reads a value of so many characters, and answers the place behind it. There is room for it in as many
/// bytes, and for the `;`.
pub(crate) fn read_value(bytes: &[u8], start: usize, count: usize) -> Result<usize, Stop>
    requires within { start ≤ length bytes.now }
    requires room { start + count + 1 ≤ 8192 }
    ensures end { IfOk result (λ end. (end ≤ length bytes.now) × (end + 1 ≤ 8192) × (start ≤ end)) }
    ensures value { IfOk result (λ end. HasChars bytes.now start end count 0) }
    ensures stop { (values : List (List ℕ)) → InValue (take start bytes.now) values [] count → IfErr result (IsStopped bytes.now) }
{
    let mut at = start;
    let mut left = count;
    while left > 0 {
        left -= 1;
        at = read_character(bytes, at, left)?;
    }
    Ok(at)
}
