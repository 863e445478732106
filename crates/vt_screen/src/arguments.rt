//! What a control function reads from its parameters (ECMA-48, section 5.4.2).

ghost use Rattle.std.specs.Prelude.{◌≡◌, ◌<◌, ◌≤◌};
ghost use Rattle.gate_model.specs.terminal.Arguments.{amount, choice, first_amount, first_choice, listed, parameter};

use gate_model::Params;

/// What a default is stored as.
pub(crate) const DEFAULT: u16 = 65535;

// The parameter of an index; one that isn't there is a default.
pub(crate) fn parameter(index: u8, params: &Params) -> u16
    requires { index < 16 }
    ensures { result ≡ parameter index params.now }
{
    if index < params.count {
        params.values[index as usize]
    } else {
        DEFAULT
    }
}

// A count, or a place counted from 1: a default and 0 are 1.
pub(crate) fn amount(value: u16) -> u16
    ensures exact { result ≡ amount value }
    ensures some { 1 ≤ result }
{
    match value {
        DEFAULT | 0 => 1,
        _ => value,
    }
}

// A choice: a default is 0.
pub(crate) fn choice(value: u16) -> u16
    ensures { result ≡ choice value }
{
    if value == DEFAULT { 0 } else { value }
}

// The first parameter as a count.
pub(crate) fn first_amount(params: &Params) -> u16
    ensures exact { result ≡ first_amount params.now }
    ensures some { 1 ≤ result }
{
    amount(parameter(0, params))
}

// The first parameter as a choice.
pub(crate) fn first_choice(params: &Params) -> u16
    ensures { result ≡ first_choice params.now }
{
    choice(parameter(0, params))
}

// The parameters that are there.
pub(crate) fn listed(params: &Params) -> &[u16]
    requires { params.now.count ≤ 16 }
    ensures { result.now ≡ listed params.now }
{
    &params.values[..params.count as usize]
}
