ghost use Rattle.std.specs.Prelude.{◌≡◌, ◌<◌, ◌++◌, OnOk};
ghost use Rattle.gate_model.specs.terminal.Screens.{IsColoured};
ghost use Rattle.frame_draw.specs.Strokes.{cell_copy};
ghost use Rattle.join_snapshot.specs.Strokes.{buffer_of};

use gate_model::{Instr, Key, NoMemory};
use glyph_strokes::cover;

// A buffer of a cell's size with the key's glyph.
#[tactic(auto, using(std::proofs::lemmas::Grind::common_steps), unfolding(crate::specs::Strokes::buffer_of))]
pub(crate) fn make_buffer(list: &mut Vec<Instr>, layer: i32, key: Key) -> Result<(), NoMemory>
    requires { IsColoured key }
    ensures { OnOk result (list.new.items ≡ list.old.items ++ buffer_of layer key) }
{
    list.push(Instr::Size {
        layer,
        width: 8,
        height: 16,
    })?;
    cover(list, layer, 0, 0, key)
}

// The copy of a buffer to column `x` of row `y` of the visible layer.
#[tactic(auto, unfolding(frame_draw::specs::Strokes::cell_copy))]
pub(crate) fn copy_to(layer: i32, x: u32, y: u32) -> Instr
    requires column { x < 512 }
    requires row { y < 256 }
    ensures { result ≡ cell_copy layer x y }
{
    Instr::Copy {
        from: layer,
        x: 0,
        y: 0,
        width: 8,
        height: 16,
        to: 0,
        to_x: 8 * x,
        to_y: 16 * y,
    }
}
