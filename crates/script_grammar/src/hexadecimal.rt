//! Bytes written as hexadecimal digits.

ghost use Rattle.std.specs.Prelude.{◌≡◌, ◌++◌, ◌<◌, IfOk, OnOk};
ghost use Rattle.std.specs.Option.{option_map};
ghost use Rattle.script_grammar.specs.Hexadecimal.{byte_of, bytes_of, digit_of, digits_of, lower_digit};

use gate_model::NoMemory;
use std::alloc::Global;

/// The bytes that pairs of hexadecimal digits of either case write.
pub(crate) fn bytes_of(alloc: Global, digits: &[u8]) -> Result<Option<Vec<u8>>, NoMemory>
    ensures { IfOk result (λ o. option_map (λ v. v.items) o ≡ bytes_of digits.now) }
{
    if digits.len() % 2 == 1 {
        return Ok(None);
    }
    let mut bytes = Vec::with_capacity(alloc, digits.len() / 2)?;
    for place in 0..digits.len() / 2 {
        match byte_of(digits[2 * place], digits[2 * place + 1]) {
            Some(byte) => bytes.push(byte)?,
            None => return Ok(None),
        }
    }
    Ok(Some(bytes))
}

// The byte of two digits, the greater first.
fn byte_of(high: u8, low: u8) -> Option<u8>
    ensures { result ≡ byte_of (digit_of high) (digit_of low) }
{
    Some(16 * digit_of(high)? + digit_of(low)?)
}

// The value of a digit.
fn digit_of(byte: u8) -> Option<u8>
    ensures exact { result ≡ digit_of byte }
{
    match byte {
        b'0'..=b'9' => Some(byte - b'0'),
        b'A'..=b'F' => Some(byte - b'A' + 10),
        b'a'..=b'f' => Some(byte - b'a' + 10),
        _ => None,
    }
}

/// Appends the digits that write the bytes, in lower case.
pub fn push_digits(text: &mut Vec<u8>, bytes: &[u8]) -> Result<(), NoMemory>
    ensures { OnOk result (text.new.items ≡ text.old.items ++ digits_of bytes.now) }
{
    for byte in bytes {
        text.push(lower_digit(*byte / 16))?;
        text.push(lower_digit(*byte % 16))?;
    }
    Ok(())
}

// The digit of a value.
fn lower_digit(value: u8) -> u8
    requires { value < 16 }
    ensures { result ≡ lower_digit value }
{
    if value < 10 {
        b'0' + value
    } else {
        b'a' + (value - 10)
    }
}
