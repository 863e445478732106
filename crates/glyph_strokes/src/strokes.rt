ghost use Rattle.std.specs.Prelude.{◌≡◌, ◌≤◌, ◌++◌, OnOk};
ghost use Rattle.glyph_table.specs.GlyphRects.{rects};
ghost use Rattle.glyph_strokes.specs.Strokes.{covering, fill, inked};

use gate_model::{Instr, Key, NoMemory};
use glyph_table::{colour_of, rects_of};

/// Appends what paints the key's paper over the cell that begins at the pixel `x`, `y` of the layer, each at
/// most 4,096, and then its glyph in its ink.
#[tactic(auto, using(std::proofs::lemmas::Grind::common_steps), unfolding(crate::specs::Strokes::covering))]
pub fn cover(list: &mut Vec<Instr>, layer: i32, x: u32, y: u32, key: Key) -> Result<(), NoMemory>
    requires left { x ≤ 4096 }
    requires upper { y ≤ 4096 }
    ensures { OnOk result (list.new.items ≡ list.old.items ++ covering layer x y key) }
{
    list.push(Instr::Rect {
        layer,
        x,
        y,
        width: 8,
        height: 16,
    })?;
    list.push(fill_with(layer, key.paper))?;
    draw_glyph(list, layer, x, y, key)?;
    Ok(())
}

// The glyph's rectangles and their fill; a glyph without lit pixels takes neither.
#[tactic(auto, using(std::proofs::lemmas::Grind::common_steps, crate::proofs::Inks::inked_none, crate::proofs::Inks::inked_some))]
fn draw_glyph(list: &mut Vec<Instr>, layer: i32, x: u32, y: u32, key: Key) -> Result<(), NoMemory>
    requires left { x ≤ 4096 }
    requires upper { y ≤ 4096 }
    ensures { OnOk result (list.new.items ≡ list.old.items ++ inked layer x y (rects key.face key.under) key.ink) }
{
    let rects = rects_of(key.face, key.under);
    let patches = rects.as_slice();
    if patches.is_empty() {
        return Ok(());
    }
    for patch in patches {
        list.push(Instr::Rect {
            layer,
            x: x + patch.x as u32,
            y: y + patch.y as u32,
            width: patch.width as u32,
            height: patch.height as u32,
        })?;
    }
    list.push(fill_with(layer, key.ink))?;
    Ok(())
}

/// The fill of the layer's path with a colour of the palette.
#[tactic(auto, unfolding(crate::specs::Strokes::fill))]
pub fn fill_with(layer: i32, index: u8) -> Instr
    ensures { result ≡ fill layer index }
{
    let colour = colour_of(index);
    Instr::Cfill {
        layer,
        red: colour.red,
        green: colour.green,
        blue: colour.blue,
    }
}
