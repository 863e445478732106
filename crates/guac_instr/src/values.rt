//! The values of an instruction's elements, as numbers and words.

ghost use Rattle.std.specs.Prelude.{◌≡◌, ◌≤◌, option_copied, slice_get, IfSome};
ghost use Rattle.gate_model.specs.text.Numerals.{coordinate_of, is_number, layer_of, number_in, number_of_bits, number_within, value_at};
ghost use Rattle.gate_model.specs.text.Spelling.{number_of};

use gate_model::limits::MOST_BUFFERS;
use guac_framing::Frame;
use numerals::number_within;

/// The value of element `k`, if it is there. The opcode is element 0.
pub(crate) fn value<'a>(frame: &Frame<'a>, k: usize) -> Option<&'a str>
    ensures { option_copied result ≡ slice_get frame.now k }
{
    if k < frame.count() {
        Some(frame.element(k))
    } else {
        None
    }
}

/// The number at element `k`, where it is from `least` to `most`.
pub(crate) fn number_at(frame: &Frame<'_>, k: usize, least: u64, most: u64) -> Option<u64>
    ensures exact { result ≡ value_at (number_within least most) k frame.now }
    ensures within { IfSome result (λ n. (least ≤ n) × (n ≤ most)) }
{
    number_within(value(frame, k)?.as_bytes(), least, most)
}

/// The number of 32 bits at element `k`.
pub(crate) fn u32_at(frame: &Frame<'_>, k: usize) -> Option<u32>
    ensures { result ≡ value_at (number_of_bits 32) k frame.now }
{
    let number = number_at(frame, k, 0, u32::MAX as u64)?;
    Some(number as u32)
}

/// The number of 8 bits at element `k`.
pub(crate) fn u8_at(frame: &Frame<'_>, k: usize) -> Option<u8>
    ensures { result ≡ value_at (number_of_bits 8) k frame.now }
{
    let number = number_at(frame, k, 0, u8::MAX as u64)?;
    Some(number as u8)
}

/// The number of 31 bits at element `k`, with or without a `-` before it.
pub(crate) fn coordinate_at(frame: &Frame<'_>, k: usize) -> Option<i32>
    ensures { result ≡ value_at coordinate_of k frame.now }
{
    coordinate_of(value(frame, k)?.as_bytes())
}

/// The number of the layer at element `k`, from -1,024 to 0.
pub(crate) fn layer_at(frame: &Frame<'_>, k: usize) -> Option<i32>
    ensures { result ≡ value_at layer_of k frame.now }
{
    layer_of(value(frame, k)?.as_bytes())
}

fn coordinate_of(value: &[u8]) -> Option<i32>
    ensures { result ≡ coordinate_of value.now }
{
    if let [b'-', digits @ ..] = value {
        let number = number_within(digits, 0, i32::MAX as u64)?;
        Some(-(number as i32))
    } else {
        let number = number_within(value, 0, i32::MAX as u64)?;
        Some(number as i32)
    }
}

fn layer_of(value: &[u8]) -> Option<i32>
    ensures { result ≡ layer_of value.now }
{
    if let [b'-', digits @ ..] = value {
        let number = number_within(digits, 1, MOST_BUFFERS)?;
        Some(-(number as i32))
    } else {
        let number = number_within(value, 0, 0)?;
        Some(number as i32)
    }
}
