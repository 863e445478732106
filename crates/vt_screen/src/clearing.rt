//! Which control functions clear a pending wrap: all but Print, REP, SGR, DSR, DA, HTS and TBC, and those
//! that have no effect in their case.

ghost use Rattle.std.specs.Prelude.{◌≡◌, ◌≤◌};
ghost use Rattle.gate_model.specs.terminal.Effects.{always_clears, clears_wrap, sequence_clears};

use crate::arguments::{first_choice, listed};
use crate::modes::names_mode;
use crate::state::State;
use gate_model::Params;

impl State {
    ghost use Rattle.gate_model.specs.declared.control.Control.TheVariants.{Csi};

    // Whether the control sequence clears a pending wrap, by the state before it.
    pub(crate) fn control_clears(&self, private: bool, params: &Params, last: u8) -> bool
        requires { params.now.count ≤ 16 }
        ensures { result ≡ clears_wrap (Csi private params.now last) self.now }
    {
        if private {
            return matches!(last, b'h' | b'l') && names_mode(true, listed(params));
        }
        self.sequence_clears(params, last)
    }

    // The same of a control sequence that isn't private.
    fn sequence_clears(&self, params: &Params, last: u8) -> bool
        requires { params.now.count ≤ 16 }
        ensures { result ≡ sequence_clears params.now last self.now }
    {
        match last {
            b'J' | b'K' => first_choice(params) <= 2,
            b'L' | b'M' => self.is_within(),
            b'h' | b'l' => names_mode(false, listed(params)),
            b'r' => self.are_margins(params),
            _ => always_clears(last),
        }
    }
}

// A cursor movement, or an editing function that always has its effect.
fn always_clears(last: u8) -> bool
    ensures { result ≡ always_clears last }
{
    matches!(
        last,
        b'@'..=b'I' | b'P' | b'S' | b'T' | b'X' | b'Z' | b'd' | b'f'
    )
}
