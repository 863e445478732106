//! What the instructions of a client mean.

ghost use Rattle.std.specs.Prelude.{◌≡◌, option_map};
ghost use Rattle.gate_model.specs.text.ClientMeaning.{act_of, key_act, mouse_act, pressed_of, size_act};
ghost use Rattle.gate_model.specs.text.Numerals.{coordinate_of, number_of_bits, value_at};
ghost use Rattle.gate_model.specs.declared.act.Act.TheVariants.{Sync};

use crate::values::{coordinate_at, number_at, u8_at, u32_at, value};
use gate_model::Act;
use guac_framing::Frame;

/// The act that the instruction asks for (the Guacamole manual, "Guacamole protocol reference"; the ranges
/// are this project's own): a key, the pointer, an acknowledgement, a size, nothing, or an end. None where
/// it has no meaning: another opcode, a value that is missing or isn't in its range. Further values are
/// ignored.
pub fn read_client(frame: &Frame<'_>) -> Option<Act>
    ensures { result ≡ act_of frame.now }
{
    match value(frame, 0)? {
        "key" => read_key(frame),
        "sync" => read_sync(frame),
        "mouse" => read_mouse(frame),
        "size" => read_size(frame),
        "nop" => Some(Act::Nop),
        "disconnect" => Some(Act::Disconnect),
        _ => None,
    }
}

fn read_key(frame: &Frame<'_>) -> Option<Act>
    ensures { result ≡ key_act (value_at (number_of_bits 32) 1 frame.now) (value_at pressed_of 2 frame.now) }
{
    let keysym = u32_at(frame, 1)?;
    let pressed = pressed_at(frame, 2)?;
    Some(Act::Key { keysym, pressed })
}

// Whether the key is down: `1` or `0` at element `k`, and no other text.
fn pressed_at(frame: &Frame<'_>, k: usize) -> Option<bool>
    ensures { result ≡ value_at pressed_of k frame.now }
{
    match value(frame, k)? {
        "1" => Some(true),
        "0" => Some(false),
        _ => None,
    }
}

fn read_sync(frame: &Frame<'_>) -> Option<Act>
    ensures { result ≡ option_map (λ stamp. Sync stamp) (value_at (number_of_bits 64) 1 frame.now) }
{
    let stamp = number_at(frame, 1, 0, u64::MAX)?;
    Some(Act::Sync { stamp })
}

fn read_mouse(frame: &Frame<'_>) -> Option<Act>
    ensures { result ≡ mouse_act (value_at coordinate_of 1 frame.now) (value_at coordinate_of 2 frame.now) (value_at (number_of_bits 8) 3 frame.now) }
{
    let x = coordinate_at(frame, 1)?;
    let y = coordinate_at(frame, 2)?;
    let mask = u8_at(frame, 3)?;
    Some(Act::Mouse { x, y, mask })
}

fn read_size(frame: &Frame<'_>) -> Option<Act>
    ensures { result ≡ size_act (value_at (number_of_bits 31) 1 frame.now) (value_at (number_of_bits 31) 2 frame.now) }
{
    let width = number_at(frame, 1, 0, i32::MAX as u64)?;
    let height = number_at(frame, 2, 0, i32::MAX as u64)?;
    Some(Act::Size {
        width: width as u32,
        height: height as u32,
    })
}
