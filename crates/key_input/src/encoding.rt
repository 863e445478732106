//! The bytes that a press sends.

ghost use Rattle.std.specs.Prelude.{◌≡◌, ◌≤◌, length};
ghost use Rattle.gate_model.specs.keys.Encoding.{after_alt, character_bytes, control_byte, encoding, key_bytes};
ghost use Rattle.gate_model.specs.keys.Keysyms.{code_point};

use crate::KeyBytes;
use crate::keysym::character;
use crate::modifiers::{alt_held, control_held};
use crate::named::named_bytes;
use gate_model::Mods;

const ESC: u8 = 0x1b;

/// The bytes that the press of a key sends, at most 8, under the viewer's modifiers and the screen's
/// cursor mode (this project's own rule).
///
/// A keysym that stands for a character gives its UTF-8. With Control held, `@` to `_` and `a` to `z`
/// give the control character, of which CR is followed by NUL (RFC 854), a blank gives 0 and `?` gives
/// 127. The keys that stand for no character have the bytes of the Linux console, whatever Control is;
/// the arrows follow the cursor mode. With Alt held, ESC comes before the bytes, if there are any.
#[tactic(auto, unfolding(gate_model::specs::keys::Encoding::encoding))]
pub fn encode(keysym: u32, mods: Mods, cursor_mode: bool) -> KeyBytes
    ensures exact { result ≡ encoding keysym mods cursor_mode }
    ensures few { length result ≤ 8 }
{
    let mut room = [0; 4];
    let bytes = key_bytes(keysym, control_held(mods), cursor_mode, &mut room);
    after_alt(alt_held(mods), bytes)
}

// The bytes with ESC before them, if Alt is held and there are any.
fn after_alt(alt: bool, bytes: &[u8]) -> KeyBytes
    requires { length bytes.now ≤ 5 }
    ensures { result ≡ after_alt alt bytes.now }
{
    let mut all = KeyBytes::new();
    if alt && !bytes.is_empty() {
        all.append(&[ESC]);
    }
    all.append(bytes);
    all
}

// The bytes of a key, without regard to Alt. `room` holds those of a character.
fn key_bytes(keysym: u32, control: bool, cursor_mode: bool, room: &mut [u8; 4]) -> &[u8]
    ensures exact { result.now ≡ key_bytes keysym control cursor_mode (code_point keysym) }
    ensures few { length result.now ≤ 5 }
{
    match character(keysym) {
        Some(ch) => character_bytes(control, ch, room),
        None => named_bytes(cursor_mode, keysym),
    }
}

// The bytes of a character, written into `room`.
fn character_bytes(control: bool, ch: char, room: &mut [u8; 4]) -> &[u8]
    ensures exact { result.now ≡ character_bytes control ch }
    ensures few { length result.now ≤ 5 }
{
    match ch {
        '@'..='_' | 'a'..='z' if control => control_byte(ch as u8 % 32, room),
        ' ' if control => b"\0",
        '?' if control => b"\x7f",
        _ => ch.encode_utf8(room).as_bytes(),
    }
}

// The byte of a control character, and NUL after CR (RFC 854).
fn control_byte(byte: u8, room: &mut [u8; 4]) -> &[u8]
    ensures exact { result.now ≡ control_byte byte }
    ensures few { length result.now ≤ 5 }
{
    if byte == b'\r' {
        return b"\r\0";
    }
    *room = [byte, 0, 0, 0];
    &room[..1]
}
