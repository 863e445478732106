//! Numbers in words: 1 to 20 decimal digits.

ghost use Rattle.std.specs.Prelude.{◌≡◌, ◌^◌, ◌-◌};
ghost use Rattle.script_grammar.specs.Numbers.{number_up_to};

pub(crate) use numerals::number;
use numerals::number_within;

/// The number, where it is below 2^64.
pub(crate) fn number_of_64_bits(word: &[u8]) -> Option<u64>
    ensures { result ≡ number_up_to (2 ^ 64 - 1) word.now }
{
    number_within(word, 0, u64::MAX)
}

/// The number, where it is below 2^32.
pub(crate) fn number_of_32_bits(word: &[u8]) -> Option<u32>
    ensures { result ≡ number_up_to (2 ^ 32 - 1) word.now }
{
    let number = number_within(word, 0, u32::MAX as u64)?;
    Some(number as u32)
}
