//! The values of a control sequence's parameters.
ghost use Rattle.std.specs.Prelude.{◌≡◌, ◌<◌};
ghost use Rattle.gate_model.specs.terminal.Parameters as model;
ghost use Rattle.ecma_parser.specs.Sequence.{next_value, with_digit};

/// A sequence has at most so many parameters.
pub const MOST_PARAMETERS: usize = 16;

const MOST_VALUE: u32 = 9999;

/// What a default is stored as.
pub const DEFAULT: u16 = 65535;

/// A digit goes on the value at a place, or on none past the last.
#[inline]
pub fn add_digit(values: &mut [u16; 16], place: usize, digit: u32)
    requires { digit < 10 }
    ensures { values.new ≡ with_digit place digit values.old }
{
    if place < MOST_PARAMETERS {
        values[place] = next_value(values[place], digit);
    }
}

/// A value with one more digit; a default counts as 0.
#[inline]
pub fn next_value(old: u16, digit: u32) -> u16
    requires { digit < 10 }
    ensures { result ≡ next_value old digit }
{
    let before = if old == DEFAULT { 0 } else { old as u32 };
    (before * 10 + digit).min(MOST_VALUE) as u16
}

/// The byte may stand in the parameters of a sequence that has an effect.
pub fn is_plain(byte: u8) -> bool
    ensures { result ≡ model.is_plain byte }
{
    matches!(byte, b'0'..=b'9' | b';')
}
