//! The names of keys, as a log tells them.

ghost use Rattle.std.specs.Prelude.{◌≡◌, ◌++◌, OnOk};
ghost use Rattle.record_play.specs.KeyNames.{editing_name, function_name, key_name, named};

use gate_model::NoMemory;
use key_input::character;
use std::alloc::Global;

/// Appends the name of a key: `less` for `<`, any other character as itself in UTF-8, the name of a key that
/// stands for no character, and `Key+` with the keysym in lower-case hexadecimal where it has none.
pub(crate) fn push_key_name(alloc: Global, text: &mut Vec<u8>, keysym: u32) -> Result<(), NoMemory>
    ensures { OnOk result (text.new.items ≡ text.old.items ++ key_name keysym) }
{
    match character(keysym) {
        Some('<') => text.extend_from_slice(b"less")?,
        Some(ch) => {
            let mut room = [0; 4];
            text.extend_from_slice(ch.encode_utf8(&mut room).as_bytes())?;
        }
        None => push_named(alloc, text, keysym)?,
    }
    Ok(())
}

// Appends the name of a key that stands for no character, or its number.
fn push_named(alloc: Global, text: &mut Vec<u8>, keysym: u32) -> Result<(), NoMemory>
    ensures { OnOk result (text.new.items ≡ text.old.items ++ named keysym) }
{
    let name = editing_name(keysym);
    if !name.is_empty() {
        text.extend_from_slice(name.as_bytes())?;
        return Ok(());
    }
    let number = format!(in alloc; "{keysym:x}")?;
    text.extend_from_slice(b"Key+")?;
    text.extend_from_slice(number.as_bytes())?;
    Ok(())
}

// The name of a key that moves or edits, or of F1 to F12; empty of any other.
fn editing_name(keysym: u32) -> &'static str
    ensures { result.now ≡ editing_name keysym }
{
    match keysym {
        0xff08 => "BackSpace",
        0xff09 => "Tab",
        0xff0d => "Return",
        0xff8d => "KP_Enter",
        0xff1b => "Escape",
        0xff52 => "Up",
        0xff54 => "Down",
        0xff53 => "Right",
        0xff51 => "Left",
        0xff50 => "Home",
        0xff63 => "Insert",
        0xffff => "Delete",
        0xff57 => "End",
        0xff55 => "Page_Up",
        0xff56 => "Page_Down",
        _ => function_name(keysym),
    }
}

// The name of F1 to F12; empty of any other key.
fn function_name(keysym: u32) -> &'static str
    ensures { result.now ≡ function_name keysym }
{
    match keysym {
        0xffbe => "F1",
        0xffbf => "F2",
        0xffc0 => "F3",
        0xffc1 => "F4",
        0xffc2 => "F5",
        0xffc3 => "F6",
        0xffc4 => "F7",
        0xffc5 => "F8",
        0xffc6 => "F9",
        0xffc7 => "F10",
        0xffc8 => "F11",
        0xffc9 => "F12",
        _ => "",
    }
}
