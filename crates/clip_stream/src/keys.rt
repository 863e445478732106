//! The keys that a text is typed by.

ghost use Rattle.std.specs.Prelude.{◌≡◌, ℕ, ◌+◌, ◌<◌, ◌≤◌, ◌++◌, [], List, vec_len, vec_capacity, length, drop, codes, decimal, false, if◌then◌else◌, IsOk, OnOk};
ghost use Rattle.guac_framing.specs.Appended.{separated};
ghost use Rattle.clip_stream.specs.Typed.{key_text, keysym_behind, keysym_of, releases, stroke, strokes_of};

use bstr::decode_lossy;
use gate_model::NoMemory;
use guac_framing::{put_element, put_end, put_number};

/// The room of the keys that wait (this project's own).
pub(crate) const KEYS_ROOM: usize = 4_096;

/// The most bytes of a key that is pressed and released.
const MOST_STROKE: usize = 48;

/// The keysym of Return (keysyms of the X Window System).
const RETURN: u32 = 0xFF0D;

/// The keysym of Tab (the same).
const TAB: u32 = 0xFF09;

/// What is added to a code point from 256 on for its keysym (the same).
const UNICODE: u32 = 0x0100_0000;

// The value of a key that is down, or up.
fn state_of(pressed: bool) -> &'static str
    ensures { result.now ≡ (if pressed then codes "1" else codes "0") }
{
    if pressed { "1" } else { "0" }
}

// Appends an element whose value is a keysym.
fn put_keysym(into: &mut Vec<u8>, keysym: u32) -> Result<(), NoMemory>
    ensures appended { OnOk result (into.new.items ≡ into.old.items ++ separated false (decimal keysym)) }
    ensures succeeds { vec_len into.old + length (separated false (decimal keysym)) ≤ vec_capacity into.old → IsOk result }
    ensures capacity { vec_capacity into.old ≤ vec_capacity into.new }
{
    put_number(into, false, i128::from(keysym))
}

// Appends a key that is pressed or released, for which there is room.
fn put_key(into: &mut Vec<u8>, keysym: u32, pressed: bool)
    requires { vec_len into.old + 24 ≤ vec_capacity into.old }
    ensures appended { into.new.items ≡ into.old.items ++ key_text keysym pressed }
    ensures few { vec_len into.new ≤ vec_len into.old + 24 }
    ensures capacity { vec_capacity into.old ≤ vec_capacity into.new }
{
    put_element(into, true, "key").unwrap();
    put_keysym(into, keysym).unwrap();
    put_element(into, false, state_of(pressed)).unwrap();
    put_end(into).unwrap();
}

// Appends a key that is pressed and released, if there is one.
fn put_stroke(into: &mut Vec<u8>, keysym: Option<u32>)
    requires { vec_len into.old + 48 ≤ vec_capacity into.old }
    ensures appended { into.new.items ≡ into.old.items ++ stroke keysym }
    ensures capacity { vec_capacity into.old ≤ vec_capacity into.new }
{
    if let Some(keysym) = keysym {
        put_key(into, keysym, true);
        put_key(into, keysym, false);
    }
}

/// Appends the releases of Control_L, Control_R, Alt_L and Alt_R, for which there is room.
pub(crate) fn put_releases(into: &mut Vec<u8>)
    requires { vec_len into.old + 96 ≤ vec_capacity into.old }
    ensures appended { into.new.items ≡ into.old.items ++ releases }
    ensures capacity { vec_capacity into.old ≤ vec_capacity into.new }
{
    put_key(into, 0xFFE3, false);
    put_key(into, 0xFFE4, false);
    put_key(into, 0xFFE9, false);
    put_key(into, 0xFFEA, false);
}

// The key of a character.
fn keysym_of(character: char) -> Option<u32>
    ensures { result ≡ keysym_of character }
{
    match character {
        '\n' | '\r' => Some(RETURN),
        '\t' => Some(TAB),
        '\0'..='\u{1F}' | '\u{7F}'..='\u{9F}' => None,
        '\u{20}'..='\u{7E}' | '\u{A0}'..='\u{FF}' => Some(u32::from(character)),
        _ => Some(UNICODE + u32::from(character)),
    }
}

// The same behind a carriage return, or not.
fn keysym_behind(returned: bool, character: char) -> Option<u32>
    ensures { result ≡ keysym_behind returned character }
{
    if returned && character == '\n' {
        None
    } else {
        keysym_of(character)
    }
}

/// Appends the keys of the bytes from `at` on, behind a carriage return or not, while there is room, and answers up to
/// where and whether a carriage return stands before it.
pub(crate) fn type_some(
    bytes: &[u8],
    at: usize,
    returned: bool,
    into: &mut Vec<u8>,
) -> (usize, bool)
    requires within { at ≤ length bytes.now }
    requires room { 4096 ≤ vec_capacity into.old }
    requires empty { into.old.items ≡ [] }
    ensures typed { into.new.items ++ strokes_of result.1 (drop result.0 bytes.now) ≡ strokes_of returned (drop at bytes.now) }
    ensures within { result.0 ≤ length bytes.now }
    ensures some { into.new.items ≡ [] → result.0 ≡ length bytes.now }
    ensures capacity { vec_capacity into.old ≤ vec_capacity into.new }
{
    let mut at = at;
    let mut returned = returned;
    while at < bytes.len() && into.len() + MOST_STROKE <= KEYS_ROOM {
        let (character, size) = decode_lossy(&bytes[at..]);
        put_stroke(into, keysym_behind(returned, character));
        returned = character == '\r';
        at += size;
    }
    (at, returned)
}
