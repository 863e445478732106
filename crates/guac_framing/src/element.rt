//! The writers of one element and of an instruction's end.

ghost use Rattle.std.specs.Prelude.{◌≡◌, ◌≤◌, ◌+◌, ◌∷◌, ◌++◌, [], length, decimal, vec_len, vec_capacity, IsOk, OnOk, OnErr};
ghost use Rattle.std.specs.Fmt.{signed_decimal};
ghost use Rattle.std.specs.Str.{chars};
ghost use Rattle.gate_model.specs.Sequences.{BeginsWith};
ghost use Rattle.guac_framing.specs.Appended.{separated, spelled};

use gate_model::NoMemory;
use itoa::{Buffer, Integer};

/// Appends an element: a `,` unless it is the instruction's first, the number of the value's characters
/// in shortest decimal, `.`, and the value (the Guacamole manual, "The Guacamole protocol"). Refused for
/// want of memory, it leaves the buffer as it was; a buffer that has the room isn't refused.
pub fn put_element(into: &mut Vec<u8>, first: bool, value: &str) -> Result<(), NoMemory>
    ensures appended { OnOk result (into.new.items ≡ into.old.items ++ separated first (chars value.now)) }
    ensures unchanged { OnErr result (into.new.items ≡ into.old.items) }
    ensures succeeds { vec_len into.old + length (separated first (chars value.now)) ≤ vec_capacity into.old → IsOk result }
    ensures capacity { vec_capacity into.old ≤ vec_capacity into.new }
{
    put_counted(into, first, characters(value), value.as_bytes())
}

/// Appends an element whose value is the number in decimal, with a `-` before a negative one.
pub fn put_number(into: &mut Vec<u8>, first: bool, value: i128) -> Result<(), NoMemory>
    ensures appended { OnOk result (into.new.items ≡ into.old.items ++ separated first (signed_decimal value)) }
    ensures unchanged { OnErr result (into.new.items ≡ into.old.items) }
    ensures succeeds { vec_len into.old + length (separated first (signed_decimal value)) ≤ vec_capacity into.old → IsOk result }
    ensures capacity { vec_capacity into.old ≤ vec_capacity into.new }
{
    match i64::try_from(value) {
        Ok(small) => put_integer(into, first, small),
        Err(_) => put_integer(into, first, value),
    }
}

/// Appends the `;` that ends an instruction.
pub fn put_end(into: &mut Vec<u8>) -> Result<(), NoMemory>
    ensures appended { OnOk result (into.new.items ≡ into.old.items ++ 59 ∷ []) }
    ensures unchanged { OnErr result (into.new.items ≡ into.old.items) }
    ensures succeeds { vec_len into.old + 1 ≤ vec_capacity into.old → IsOk result }
    ensures capacity { vec_capacity into.old ≤ vec_capacity into.new }
{
    into.push(b';')?;
    Ok(())
}

// Appends an element whose value is the number in decimal.
fn put_integer<I: Integer>(into: &mut Vec<u8>, first: bool, value: I) -> Result<(), NoMemory>
    ensures appended { OnOk result (into.new.items ≡ into.old.items ++ separated first (I.text value)) }
    ensures unchanged { OnErr result (into.new.items ≡ into.old.items) }
    ensures succeeds { vec_len into.old + length (separated first (I.text value)) ≤ vec_capacity into.old → IsOk result }
    ensures capacity { vec_capacity into.old ≤ vec_capacity into.new }
{
    let mut buffer = Buffer::new();
    let text = buffer.format(value).as_bytes();
    put_counted(into, first, text.len(), text)
}

// How many characters the text has.
#[tactic(auto, using(std::proofs::lemmas::Str::chars_from_encodes))]
fn characters(text: &str) -> usize
    ensures { result ≡ length (chars text.now) }
{
    text.chars().count()
}

// Appends an element of so many characters, whose value has these bytes.
fn put_counted(into: &mut Vec<u8>, first: bool, count: usize, value: &[u8]) -> Result<(), NoMemory>
    ensures appended { OnOk result (into.new.items ≡ into.old.items ++ spelled first (decimal count) value.now) }
    ensures unchanged { OnErr result (into.new.items ≡ into.old.items) }
    ensures succeeds { vec_len into.old + length (spelled first (decimal count) value.now) ≤ vec_capacity into.old → IsOk result }
    ensures capacity { vec_capacity into.old ≤ vec_capacity into.new }
{
    let mut buffer = Buffer::new();
    let digits = buffer.format(count).as_bytes();
    let before = into.len();
    let put = put_spelled(into, first, digits, value);
    if put.is_err() {
        into.truncate(before);
    }
    put
}

// Appends the pieces of an element. Refused, it may have appended some of them.
fn put_spelled(into: &mut Vec<u8>, first: bool, digits: &[u8], value: &[u8]) -> Result<(), NoMemory>
    ensures appended { OnOk result (into.new.items ≡ into.old.items ++ spelled first digits.now value.now) }
    ensures front { BeginsWith into.new.items into.old.items }
    ensures succeeds { vec_len into.old + length (spelled first digits.now value.now) ≤ vec_capacity into.old → IsOk result }
    ensures capacity { vec_capacity into.old ≤ vec_capacity into.new }
{
    if !first {
        into.push(b',')?;
    }
    into.extend_from_slice(digits)?;
    into.push(b'.')?;
    into.extend_from_slice(value)?;
    Ok(())
}
