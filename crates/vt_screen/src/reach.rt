ghost use Rattle.std.specs.Prelude.{◌≡◌};
ghost use Rattle.vt_screen.specs.Reach.{reach};

/// Where a control sequence can leave a half of a character without its other half.
#[derive(Clone, Copy)]
pub(crate) enum Reach {
    Nothing,
    Line,
    All,
}

// The reach of the control sequence with this final byte: ED and REP leave them anywhere, and ICH, EL, DCH and ECH in
// the cursor's line. Lines that scroll move whole.
pub(crate) fn reach_of(private: bool, last: u8) -> Reach
    ensures { result ≡ reach private last }
{
    match (private, last) {
        (false, b'J' | b'b') => Reach::All,
        (false, b'@' | b'K' | b'P' | b'X') => Reach::Line,
        _ => Reach::Nothing,
    }
}
