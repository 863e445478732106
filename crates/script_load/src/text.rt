//! What the host sends for a word.

ghost use Rattle.std.specs.Prelude.{◌≡◌, ◌+◌, ◌/◌, ◌%◌, ◌++◌, ◌∷◌, [], decimal, OnOk};
ghost use Rattle.script_load.specs.Rounds.{text_of};

use gate_model::NoMemory;
use itoa::Buffer;

/// Appends what the host sends for a word: CR LF, a colour (`ESC [ 3 d m`), a place (`ESC [ r ; c H`), or a
/// printed character (ECMA-48, 8.3.117 and 8.3.21; which of them is this project's own rule).
pub(crate) fn push_text(text: &mut Vec<u8>, word: u32) -> Result<(), NoMemory>
    ensures { OnOk result (text.new.items ≡ text.old.items ++ text_of word) }
{
    match word % 16 {
        0 => text.extend_from_slice(b"\r\n")?,
        1 => push_colour(text, word)?,
        2 => push_place(text, word)?,
        _ => text.push(0x20 + (word / 16 % 95) as u8)?,
    }
    Ok(())
}

// Appends the sequence that sets a colour of the text.
fn push_colour(text: &mut Vec<u8>, word: u32) -> Result<(), NoMemory>
    ensures { OnOk result (text.new.items ≡ text.old.items ++ 27 ∷ 91 ∷ 51 ∷ (48 + word / 16 % 8) ∷ 109 ∷ []) }
{
    text.extend_from_slice(b"\x1b[3")?;
    text.push(b'0' + (word / 16 % 8) as u8)?;
    text.push(b'm')?;
    Ok(())
}

// Appends the sequence that moves the cursor.
fn push_place(text: &mut Vec<u8>, word: u32) -> Result<(), NoMemory>
    ensures { OnOk result (text.new.items ≡ text.old.items ++ 27 ∷ 91 ∷ decimal (1 + word / 16 % 24) ++ 59 ∷ decimal (1 + word / 1024 % 80) ++ 72 ∷ []) }
{
    let mut buffer = Buffer::new();
    text.extend_from_slice(b"\x1b[")?;
    text.extend_from_slice(buffer.format(1 + word / 16 % 24).as_bytes())?;
    text.push(b';')?;
    text.extend_from_slice(buffer.format(1 + word / 1024 % 80).as_bytes())?;
    text.push(b'H')?;
    Ok(())
}
