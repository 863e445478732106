//! What the press of a key says in a log.

ghost use Rattle.std.specs.Prelude.{◌≡◌, ◌++◌, OnOk};
ghost use Rattle.record_play.specs.KeyLog.{is_plain, is_silent, prefix_of, press_text};
ghost use Rattle.gate_model.specs.keys.Keysyms.{code_point};

use crate::key_name::push_key_name;
use gate_model::{Mods, NoMemory};
use key_input::{alt_held, character, control_held};
use std::alloc::Global;

/// Appends what the press of a key says under these modifiers: nothing for Control, Alt and Shift; a character
/// other than `<` as itself where neither Control nor Alt is held; else `<`, the modifiers that are held, the
/// key's name and `>`.
pub(crate) fn push_press(
    alloc: Global,
    text: &mut Vec<u8>,
    mods: Mods,
    keysym: u32,
) -> Result<(), NoMemory>
    ensures { OnOk result (text.new.items ≡ text.old.items ++ press_text mods keysym) }
{
    if is_silent(keysym) {
        return Ok(());
    }
    if is_plain(mods, keysym) {
        return push_key_name(alloc, text, keysym);
    }
    text.push(b'<')?;
    push_prefix(text, mods)?;
    push_key_name(alloc, text, keysym)?;
    text.push(b'>')?;
    Ok(())
}

// Whether it is a Control, Alt or Shift key.
fn is_silent(keysym: u32) -> bool
    ensures { result ≡ is_silent keysym }
{
    matches!(keysym, 0xffe1..=0xffe4 | 0xffe9 | 0xffea)
}

// Whether it stands for a character that is told as it is.
fn is_plain(mods: Mods, keysym: u32) -> bool
    ensures { result ≡ is_plain mods (code_point keysym) }
{
    match character(keysym) {
        Some(ch) => ch != '<' && !control_held(mods) && !alt_held(mods),
        None => false,
    }
}

// Appends the modifiers that are held.
fn push_prefix(text: &mut Vec<u8>, mods: Mods) -> Result<(), NoMemory>
    ensures { OnOk result (text.new.items ≡ text.old.items ++ prefix_of mods) }
{
    if control_held(mods) {
        text.extend_from_slice(b"Ctrl+")?;
    }
    if alt_held(mods) {
        text.extend_from_slice(b"Alt+")?;
    }
    Ok(())
}
