//! The whole screen drawn anew on the visible layer: first each row's papers, in runs of equal paper, then
//! each cell's glyph in its ink. It knows of no buffers and of no screen before.

ghost use Rattle.std.specs.Prelude.{◌<◌};

use anyhow::Result;
use gate_model::{Instr, Key, Shown};
use glyph_table::{colour_of, rects_of};
use std::alloc::Global;

/// The instructions: they size the visible layer, and draw the screen.
pub fn redraw(alloc: Global, now: &Shown) -> Result<Vec<Instr>> {
    let mut list = Vec::new(alloc);
    list.push(Instr::Size {
        layer: 0,
        width: 8 * now.cols() as u32,
        height: 16 * now.rows() as u32,
    })?;
    for y in 0..now.rows() {
        draw_row_papers(&mut list, now, y)?;
    }
    for y in 0..now.rows() {
        draw_row_inks(&mut list, now, y)?;
    }
    Ok(list)
}

// One row's papers: a run ends where the paper changes, and at the end of the row.
fn draw_row_papers(list: &mut Vec<Instr>, now: &Shown, y: u16) -> Result<()>
    requires { y < now.now.rows }
{
    let cols = now.cols();
    if cols == 0 {
        return Ok(());
    }
    let mut from = 0;
    let mut paper = now.key(0, y).paper;
    for x in 1..cols {
        let next = now.key(x, y).paper;
        if next != paper {
            draw_run(list, from, x, y, paper)?;
            from = x;
            paper = next;
        }
    }
    draw_run(list, from, cols, y, paper)
}

// The columns from `from` up to `to`, not included, of one row.
fn draw_run(list: &mut Vec<Instr>, from: u16, to: u16, y: u16, paper: u8) -> Result<()> {
    list.push(Instr::Rect {
        layer: 0,
        x: 8 * from as u32,
        y: 16 * y as u32,
        width: 8 * to.saturating_sub(from) as u32,
        height: 16,
    })?;
    list.push(fill_with(paper))?;
    Ok(())
}

fn draw_row_inks(list: &mut Vec<Instr>, now: &Shown, y: u16) -> Result<()>
    requires { y < now.now.rows }
{
    for x in 0..now.cols() {
        draw_glyph(list, x, y, now.key(x, y))?;
    }
    Ok(())
}

// The glyph's rectangles and their fill; a glyph without lit pixels takes neither.
fn draw_glyph(list: &mut Vec<Instr>, x: u16, y: u16, key: Key) -> Result<()> {
    let rects = rects_of(key.face, key.under);
    let patches = rects.as_slice();
    if patches.is_empty() {
        return Ok(());
    }
    for patch in patches {
        list.push(Instr::Rect {
            layer: 0,
            x: 8 * x as u32 + patch.x as u32,
            y: 16 * y as u32 + patch.y as u32,
            width: patch.width as u32,
            height: patch.height as u32,
        })?;
    }
    list.push(fill_with(key.ink))?;
    Ok(())
}

// The fill of the visible layer's path with a colour of the palette.
fn fill_with(index: u8) -> Instr {
    let colour = colour_of(index);
    Instr::Cfill {
        layer: 0,
        red: colour.red,
        green: colour.green,
        blue: colour.blue,
    }
}
