//! The reader of an instruction.

ghost use Rattle.std.specs.Prelude.{◌≡◌, ◌<◌, ◌≤◌, ℕ, ◌+◌, List, [], ◌∷◌, ◌++◌, length, take, slice_index, IfOk, IfErr};
ghost use Rattle.std.specs.Str.{chars};
ghost use Rattle.guac_framing.specs.Answers.{IfBad, IfMore, IfWhole, IsStopped, IsWhole};
ghost use Rattle.guac_framing.specs.Found.{HasKind, HasOneKind, IsBadPlace, IsUnfinished};
ghost use Rattle.guac_framing.specs.Spans.{AreSpans, IsSpan, text_at, texts_at};
ghost use Rattle.guac_framing.specs.Standing.{BehindValue, InLength};

use crate::length::read_length;
use crate::limits::MOST_ELEMENTS;
use crate::next::Stop;
use crate::separator::{Separator, read_separator};
use crate::span::Span;
use crate::value::read_value;
use crate::{Frame, Next};

/// Says what the front of the bytes is: an instruction, whose elements are lent from them; less than one,
/// that some continuation makes whole; or neither (the Guacamole manual, "The Guacamole protocol").
/// Lengths count characters, and may have leading zeros, up to 5 digits. An instruction has 1 to 128
/// elements and at most 8,192 bytes, the `;` included. It takes no memory, and copies no value.
pub fn next_instruction(bytes: &[u8]) -> Next<'_>
    ensures whole { IfWhole result (IsWhole bytes.now) }
    ensures more { IfMore result (IsUnfinished bytes.now) }
    ensures bad { IfBad result (λ at. IsBadPlace bytes.now at.place) }
    ensures kind { IfBad result (λ at. HasKind (take at.place bytes.now) (slice_index bytes.now at.place) at.kind) }
    ensures one_kind { IfBad result (HasOneKind bytes.now) }
{
    let mut spans = [Span { start: 0, end: 0 }; MOST_ELEMENTS];
    match read_elements(bytes, &mut spans) {
        Ok((count, end)) => Next::Whole(Frame::new(bytes, spans, count), end),
        Err(Stop::More) => Next::More,
        Err(Stop::Bad(at)) => Next::Bad(at),
    }
}

// Reads the elements to the `;`, and answers how many there are and the place behind it.
fn read_elements(bytes: &[u8], spans: &mut [Span; MOST_ELEMENTS]) -> Result<(usize, usize), Stop>
    ensures count { IfOk result (λ r. r.0 ≤ 128) }
    ensures spans { IfOk result (λ r. AreSpans bytes.now (take r.0 spans.new)) }
    ensures whole { IfOk result (λ r. IsWhole bytes.now (texts_at bytes.now (take r.0 spans.new)) r.1) }
    ensures stop { IfErr result (IsStopped bytes.now) }
{
    let mut count = 0;
    let mut at = 0;
    loop {
        let span = read_element(bytes, at)?;
        spans[count] = span;
        count += 1;
        let end = usize::from(span.end);
        match read_separator(bytes, end, count)? {
            Separator::End => return Ok((count, end + 1)),
            Separator::Other => at = end + 1,
        }
    }
}

// Reads an element, and answers where its value stands.
fn read_element(bytes: &[u8], at: usize) -> Result<Span, Stop>
    requires within { at ≤ length bytes.now }
    requires room { at + 3 ≤ 8192 }
    ensures span { IfOk result (IsSpan bytes.now) }
    ensures room { IfOk result (λ s. s.end + 1 ≤ 8192) }
    ensures later { IfOk result (λ s. at < s.end) }
    ensures value { (values : List (List ℕ)) → InLength (take at bytes.now) values [] → IfOk result (λ s. BehindValue (take s.end bytes.now) (values ++ chars (text_at bytes.now s) ∷ [])) }
    ensures stop { (values : List (List ℕ)) → InLength (take at bytes.now) values [] → IfErr result (IsStopped bytes.now) }
{
    let (count, start) = read_length(bytes, at)?;
    let end = read_value(bytes, start, count)?;
    Ok(Span {
        start: start as u16,
        end: end as u16,
    })
}
