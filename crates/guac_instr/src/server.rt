//! The instructions of the gateway, read back.

ghost use Rattle.std.specs.Prelude.{◌≡◌, option_map, slice_get};
ghost use Rattle.gate_model.specs.text.Numerals.{layer_of, number_of_bits, value_at};
ghost use Rattle.gate_model.specs.text.ServerMeaning.{cfill_instr, copy_instr, error_instr, extent_of, instr_of, opaque_of, over_of, rect_instr, size_instr};
ghost use Rattle.gate_model.specs.declared.instr.Instr.TheVariants.{Sync};

use crate::constants::{OPAQUE, OVER};
use crate::values::{layer_at, number_at, u8_at, u32_at, value};
use gate_model::Instr;
use gate_model::limits::MOST_EXTENT;
use guac_framing::Frame;

/// The instruction, where it is one that the gateway sends (the Guacamole manual, "Guacamole protocol
/// reference"; the ranges are this project's own): layers are from -1,024 to 0, sizes go to 4,096, the mask
/// is 14 and the alpha 255. None for any other. The text of an `error` may be any, and further values are
/// ignored.
pub fn read_server(frame: &Frame<'_>) -> Option<Instr>
    ensures { result ≡ instr_of frame.now }
{
    match value(frame, 0)? {
        "size" => read_size(frame),
        "rect" => read_rect(frame),
        "cfill" => read_cfill(frame),
        "copy" => read_copy(frame),
        "sync" => read_sync(frame),
        "disconnect" => Some(Instr::Disconnect),
        "error" => read_error(frame),
        _ => None,
    }
}

fn read_size(frame: &Frame<'_>) -> Option<Instr>
    ensures { result ≡ size_instr (value_at layer_of 1 frame.now) (value_at extent_of 2 frame.now) (value_at extent_of 3 frame.now) }
{
    let layer = layer_at(frame, 1)?;
    let width = extent_at(frame, 2)?;
    let height = extent_at(frame, 3)?;
    Some(Instr::Size {
        layer,
        width,
        height,
    })
}

// The width or the height of a layer at element `k`.
fn extent_at(frame: &Frame<'_>, k: usize) -> Option<u32>
    ensures { result ≡ value_at extent_of k frame.now }
{
    let extent = number_at(frame, k, 0, MOST_EXTENT as u64)?;
    Some(extent as u32)
}

fn read_rect(frame: &Frame<'_>) -> Option<Instr>
    ensures { result ≡ rect_instr (value_at layer_of 1 frame.now) (value_at (number_of_bits 32) 2 frame.now) (value_at (number_of_bits 32) 3 frame.now) (value_at (number_of_bits 32) 4 frame.now) (value_at (number_of_bits 32) 5 frame.now) }
{
    let layer = layer_at(frame, 1)?;
    let x = u32_at(frame, 2)?;
    let y = u32_at(frame, 3)?;
    let width = u32_at(frame, 4)?;
    let height = u32_at(frame, 5)?;
    Some(Instr::Rect {
        layer,
        x,
        y,
        width,
        height,
    })
}

fn read_cfill(frame: &Frame<'_>) -> Option<Instr>
    ensures { result ≡ cfill_instr (value_at over_of 1 frame.now) (value_at layer_of 2 frame.now) (value_at (number_of_bits 8) 3 frame.now) (value_at (number_of_bits 8) 4 frame.now) (value_at (number_of_bits 8) 5 frame.now) (value_at opaque_of 6 frame.now) }
{
    number_at(frame, 1, OVER, OVER)?;
    let layer = layer_at(frame, 2)?;
    let red = u8_at(frame, 3)?;
    let green = u8_at(frame, 4)?;
    let blue = u8_at(frame, 5)?;
    number_at(frame, 6, OPAQUE, OPAQUE)?;
    Some(Instr::Cfill {
        layer,
        red,
        green,
        blue,
    })
}

fn read_copy(frame: &Frame<'_>) -> Option<Instr>
    ensures { result ≡ copy_instr (value_at layer_of 1 frame.now) (value_at (number_of_bits 32) 2 frame.now) (value_at (number_of_bits 32) 3 frame.now) (value_at (number_of_bits 32) 4 frame.now) (value_at (number_of_bits 32) 5 frame.now) (value_at over_of 6 frame.now) (value_at layer_of 7 frame.now) (value_at (number_of_bits 32) 8 frame.now) (value_at (number_of_bits 32) 9 frame.now) }
{
    let from = layer_at(frame, 1)?;
    let x = u32_at(frame, 2)?;
    let y = u32_at(frame, 3)?;
    let width = u32_at(frame, 4)?;
    let height = u32_at(frame, 5)?;
    number_at(frame, 6, OVER, OVER)?;
    let to = layer_at(frame, 7)?;
    let to_x = u32_at(frame, 8)?;
    let to_y = u32_at(frame, 9)?;
    Some(Instr::Copy {
        from,
        x,
        y,
        width,
        height,
        to,
        to_x,
        to_y,
    })
}

fn read_sync(frame: &Frame<'_>) -> Option<Instr>
    ensures { result ≡ option_map (λ stamp. Sync stamp) (value_at (number_of_bits 64) 1 frame.now) }
{
    let stamp = number_at(frame, 1, 0, u64::MAX)?;
    Some(Instr::Sync { stamp })
}

fn read_error(frame: &Frame<'_>) -> Option<Instr>
    ensures { result ≡ error_instr (slice_get frame.now 1) (value_at (number_of_bits 16) 2 frame.now) }
{
    value(frame, 1)?;
    let status = number_at(frame, 2, 0, u16::MAX as u64)?;
    Some(Instr::Error {
        status: status as u16,
    })
}
