//! The kinds of characters in control functions (ECMA-48, sections 5.2 to 5.6).
ghost use Rattle.std.specs.Prelude.{◌≡◌, IsTrue};
ghost use Rattle.gate_model.specs.terminal.Controls as model;
ghost use Rattle.ecma_parser.specs.declared.sequence.Sequence.{Sequence};
ghost use Rattle.ecma_parser.specs.Begun.{BeginsSequence};
ghost use Rattle.ecma_parser.specs.State.{control_by};

use crate::state::Completed;

const BEL: char = '\x07';

const CAN: char = '\x18';

const SUB: char = '\x1A';

/// What a character outside a sequence completes; DEL and the C1 set have no effect. ESC isn't one.
pub fn completed_by(c: char) -> Completed
    ensures { (s : Sequence) → control_by result s ≡ model.control_of c }
{
    if c < ' ' {
        Completed::ControlCharacter(c as u8)
    } else if matches!(c, '\x7F'..='\u{9F}') {
        Completed::Nothing
    } else {
        Completed::Text(c)
    }
}

/// The character may stand among the parameters of a control sequence.
pub fn is_parameter(c: char) -> bool
    ensures { result ≡ model.is_parameter c }
{
    matches!(c, '0'..='?')
}

/// The character is an intermediate one, in an escape or control sequence.
pub fn is_intermediate(c: char) -> bool
    ensures { result ≡ model.is_intermediate c }
{
    matches!(c, ' '..='/')
}

/// The character ends a control sequence.
pub fn is_csi_final(c: char) -> bool
    ensures { result ≡ model.is_csi_final c }
{
    matches!(c, '@'..='~')
}

/// The character ends an escape sequence.
pub fn is_escape_final(c: char) -> bool
    ensures { result ≡ model.is_escape_final c }
{
    matches!(c, '0'..='~')
}

/// After ESC the character begins a string that BEL doesn't end: DCS, SOS, PM or APC.
pub fn begins_string(c: char) -> bool
    ensures { result ≡ model.begins_string c }
{
    matches!(c, 'P' | 'X' | '^' | '_')
}

/// The character ends a string.
pub fn ends_string(c: char, by_bell: bool) -> bool
    ensures { result ≡ model.ends_string by_bell c }
{
    c == CAN || c == SUB || (by_bell && c == BEL)
}

/// The bytes begin with a control sequence's `ESC [`.
pub fn begins_sequence(piece: &[u8]) -> bool
    ensures { IsTrue result → BeginsSequence piece.now }
{
    2 <= piece.len() && piece[0] == 0x1B && piece[1] == b'['
}
