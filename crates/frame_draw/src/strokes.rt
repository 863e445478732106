ghost use Rattle.std.specs.Prelude.{◌≡◌, ◌+◌, ◌-◌, ◌*◌, ◌/◌, ◌%◌, ◌<◌, ◌≤◌, pos, [], ◌∷◌, ◌++◌, OnOk};
ghost use Rattle.gate_model.specs.terminal.Screens.{IsColoured};
ghost use Rattle.frame_draw.specs.Strokes.{band_copy, cell_copy, filling, painting, run_copy, scrolling};

use dirty_region::Band;
use gate_model::{Instr, Key, NoMemory};
use glyph_cache::{Slot, SlotKind};
use glyph_strokes::{cover, fill_with};

// What a buffer takes to show its key: nothing where it shows it already.
#[tactic(auto, using(std::proofs::lemmas::Grind::common_steps), unfolding(crate::specs::Strokes::painting))]
pub(crate) fn paint(list: &mut Vec<Instr>, slot: Slot, key: Key) -> Result<(), NoMemory>
    requires { IsColoured key }
    ensures { OnOk result (list.new.items ≡ list.old.items ++ painting slot.kind slot.layer key) }
{
    match slot.kind {
        SlotKind::Held => {}
        SlotKind::Made => {
            list.push(Instr::Size {
                layer: slot.layer,
                width: 8,
                height: 16,
            })?;
            cover(list, slot.layer, 0, 0, key)?;
        }
        SlotKind::Reused => cover(list, slot.layer, 0, 0, key)?,
    }
    Ok(())
}

// The copy of a buffer to a place of the visible layer, counted row by row.
#[tactic(auto, unfolding(crate::specs::Strokes::cell_copy))]
pub(crate) fn copy_to(layer: i32, place: usize, cols: usize) -> Instr
    requires columns { 1 ≤ cols }
    requires few_columns { cols ≤ 512 }
    requires few_rows { place < 256 * cols }
    ensures { result ≡ cell_copy layer (place % cols) (place / cols) }
{
    Instr::Copy {
        from: layer,
        x: 0,
        y: 0,
        width: 8,
        height: 16,
        to: 0,
        to_x: 8 * (place % cols) as u32,
        to_y: 16 * (place / cols) as u32,
    }
}

// The whole screen moves up, where something of it is left; the last rows stay as they are.
#[tactic(auto, using(std::proofs::lemmas::Grind::common_steps), unfolding(crate::specs::Strokes::scrolling, crate::specs::Strokes::scroll))]
pub(crate) fn scroll(
    list: &mut Vec<Instr>,
    cols: u16,
    rows: u16,
    shift: u32,
) -> Result<(), NoMemory>
    ensures { OnOk result (list.new.items ≡ list.old.items ++ scrolling cols rows shift) }
{
    let rows = rows as u32;
    if 0 < shift && shift < rows {
        list.push(Instr::Copy {
            from: 0,
            x: 0,
            y: 16 * shift,
            width: 8 * cols as u32,
            height: 16 * (rows - shift),
            to: 0,
            to_x: 0,
            to_y: 0,
        })?;
    }
    Ok(())
}

// The copy of a band of whole rows of the visible layer to where it comes to stand.
#[tactic(auto, unfolding(crate::specs::Strokes::band_copy))]
pub(crate) fn copy_band(cols: u16, band: Band) -> Instr
    ensures { result ≡ band_copy cols band }
{
    Instr::Copy {
        from: 0,
        x: 0,
        y: 16 * band.from as u32,
        width: 8 * cols as u32,
        height: 16 * band.height as u32,
        to: 0,
        to_x: 0,
        to_y: 16 * band.top as u32,
    }
}

// So many columns and rows of cells from a place on get a paper.
#[tactic(auto, using(std::proofs::lemmas::Grind::common_steps), unfolding(crate::specs::Strokes::filling))]
pub(crate) fn fill_cells(
    list: &mut Vec<Instr>,
    cols: usize,
    place: usize,
    width: usize,
    height: usize,
    paper: u8,
) -> Result<(), NoMemory>
    requires columns { 1 ≤ cols }
    requires few_columns { cols ≤ 512 }
    requires few_rows { place < 256 * cols }
    requires width { width ≤ 512 }
    requires height { height ≤ 131072 }
    ensures { OnOk result (list.new.items ≡ list.old.items ++ filling cols place width height paper) }
{
    list.push(Instr::Rect {
        layer: 0,
        x: 8 * (place % cols) as u32,
        y: 16 * (place / cols) as u32,
        width: 8 * width as u32,
        height: 16 * height as u32,
    })?;
    list.push(fill_with(0, paper))?;
    Ok(())
}

// The copy of so many cells of the visible layer, in one row each.
#[tactic(auto, unfolding(crate::specs::Strokes::run_copy))]
pub(crate) fn copy_cells(cols: usize, from: usize, to: usize, length: usize) -> Instr
    requires columns { 1 ≤ cols }
    requires few_columns { cols ≤ 512 }
    requires from { from < 256 * cols }
    requires to { to < 256 * cols }
    requires length { length ≤ 512 }
    ensures { result ≡ run_copy cols from to length }
{
    Instr::Copy {
        from: 0,
        x: 8 * (from % cols) as u32,
        y: 16 * (from / cols) as u32,
        width: 8 * length as u32,
        height: 16,
        to: 0,
        to_x: 8 * (to % cols) as u32,
        to_y: 16 * (to / cols) as u32,
    }
}
