//! The characters that keysyms stand for.

ghost use Rattle.std.specs.Prelude.{◌≡◌};
ghost use Rattle.gate_model.specs.keys.Keysyms.{code_point};

// The difference of a character's keysym and its code point.
const UNICODE: u32 = 0x0100_0000;

/// The character that a keysym stands for: one of Latin-1 is its own keysym, and any from U+0020 on
/// has its code point and 0x01000000. No keysym stands for a control character.
pub fn character(keysym: u32) -> Option<char>
    ensures { result ≡ code_point keysym }
{
    let code = match keysym {
        0x20..=0x7e | 0xa0..=0xff => keysym,
        0x0100_0020..=0x0100_007e | 0x0100_00a0..=0x0110_ffff => keysym - UNICODE,
        _ => return None,
    };
    char::from_u32(code)
}
