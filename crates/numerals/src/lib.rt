//! Decimal numbers, as all that is read has them: of instructions, forms, heads and words.
//!
//! `number_in` of gate_model's `specs/text/Numerals.antt` says which bytes are a number, and which it is.
#![tactic(auto)]

ghost use Rattle.std.specs.Prelude.{◌≡◌, ◌≤◌, true, IfSome};
ghost use Rattle.std.specs.Char.{is_ascii_digit};
ghost use Rattle.std.specs.List.{list_all};
ghost use Rattle.gate_model.specs.text.Numerals.{is_number, number_in, number_within};
ghost use Rattle.gate_model.specs.text.Spelling.{number_of};

/// The most digits of a number (this project's own).
const MOST_DIGITS: usize = 20;

/// The number of 1 to 20 decimal digits, leading zeros among them, or None for any other bytes (this
/// project's own).
pub fn number(digits: &[u8]) -> Option<u128>
    ensures { result ≡ number_in digits.now }
{
    if is_number(digits) {
        Some(number_of(digits))
    } else {
        None
    }
}

/// The same, where it is from `least` to `most`.
pub fn number_within(digits: &[u8], least: u64, most: u64) -> Option<u64>
    ensures exact { result ≡ number_within least most digits.now }
    ensures within { IfSome result (λ n. (least ≤ n) × (n ≤ most)) }
{
    let number = number(digits)?;
    if u128::from(least) <= number && number <= u128::from(most) {
        Some(number as u64)
    } else {
        None
    }
}

// Whether these are 1 to 20 digits.
fn is_number(value: &[u8]) -> bool
    ensures { result ≡ is_number value.now }
{
    (1..=MOST_DIGITS).contains(&value.len()) && all_digits(value)
}

// Whether each byte is a digit.
fn all_digits(value: &[u8]) -> bool
    ensures { result ≡ list_all is_ascii_digit value.now }
{
    value.iter().all(|byte| byte.is_ascii_digit())
}

// The number of the digits.
fn number_of(digits: &[u8]) -> u128
    requires { is_number digits.now ≡ true }
    ensures { result ≡ number_of digits.now }
{
    let mut number: u128 = 0;
    for digit in digits {
        number = 10 * number + u128::from(*digit - b'0');
    }
    number
}
