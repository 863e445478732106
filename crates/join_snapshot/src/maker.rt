ghost use Rattle.std.specs.Prelude.{◌≡◌, ◌+◌, ◌*◌, ◌/◌, ◌%◌, ◌<◌, ◌≤◌, negsuc, ◌++◌, length, IfOk, OnOk};
ghost use Rattle.gate_model.specs.picture.Buffers.{Makes};
ghost use Rattle.gate_model.specs.picture.Shape.{Shape};
ghost use Rattle.gate_model.specs.session.Steps.{IsScreenSize};
ghost use Rattle.gate_model.specs.terminal.Screens.{AreColoured, IsColoured};
ghost use Rattle.glyph_cache.specs.Cache.{IsCache};
ghost use Rattle.join_snapshot.specs.Snapshot.{AddsCell, AddsCells, AddsPicture, AddsPlace, all_buffers};

use crate::strokes::{copy_to, make_buffer};
use frame_draw::fill_blanks;
use gate_model::{Instr, Instrs, Key, NoMemory, Shown};
use glyph_cache::Cache;
use glyph_strokes::cover;
use std::alloc::Global;

/// The most buffers of a cache (this project's own rule).
const MOST: u16 = 1_024;

/// The screen and the buffers of the cache, over any layers without an unfilled path in which each layer
/// that has a size is the visible one or a buffer of the cache. `stamp` is that of its sync, which stands
/// last. The cache stays as it is.
pub fn snapshot(alloc: Global, now: &Shown, cache: &Cache, stamp: u64) -> Result<Instrs, NoMemory>
    requires size { IsScreenSize now.now.cols now.now.rows }
    requires coloured { AreColoured now.now.keys }
    ensures shape { IfOk result (λ is. Shape now.now.cols now.now.rows is stamp) }
    ensures makes { IfOk result (λ is. Makes is now.now cache.now.keys) }
    ensures few { IfOk result (λ is. length is ≤ 3 + 40 * (now.now.cols * now.now.rows + 1024)) }
{
    let mut wanted = vec![in alloc; true; now.as_slice().len()]?;
    let mut list = Vec::new(alloc);
    list.push(Instr::Size {
        layer: 0,
        width: 8 * now.cols() as u32,
        height: 16 * now.rows() as u32,
    })?;
    make_buffers(&mut list, cache)?;
    draw_picture(&mut list, cache, now, &mut wanted)?;
    list.push(Instr::Sync { stamp })?;
    Ok(Instrs::of(list))
}

// Each buffer of the cache anew.
fn make_buffers(list: &mut Vec<Instr>, cache: &Cache) -> Result<(), NoMemory>
    ensures made { OnOk result (list.new.items ≡ list.old.items ++ all_buffers cache.now.keys) }
    ensures valid { OnOk result (IsCache cache.now) }
{
    for number in 0..MOST {
        let layer = layer_of(number);
        if let Some(key) = cache.key_at(layer) {
            make_buffer(list, layer, key)?;
        }
    }
    Ok(())
}

// The layer of the buffer of this number.
fn layer_of(number: u16) -> i32
    ensures { result ≡ negsuc number }
{
    -1 - number as i32
}

// Every place of the screen: strips of blank places are filled, and the others follow, row by row.
fn draw_picture(
    list: &mut Vec<Instr>,
    cache: &Cache,
    now: &Shown,
    wanted: &mut [bool],
) -> Result<(), NoMemory>
    requires size { IsScreenSize now.now.cols now.now.rows }
    requires coloured { AreColoured now.now.keys }
    requires all { length wanted.now ≡ length now.now.keys }
    ensures { OnOk result (AddsPicture cache.now.keys now.now wanted.old list.old.items list.new.items) }
{
    fill_blanks(list, wanted, now)?;
    draw_places(list, cache, now, wanted)
}

// The places that are wanted, row by row.
fn draw_places(
    list: &mut Vec<Instr>,
    cache: &Cache,
    now: &Shown,
    wanted: &[bool],
) -> Result<(), NoMemory>
    requires size { IsScreenSize now.now.cols now.now.rows }
    requires coloured { AreColoured now.now.keys }
    requires all { length wanted.now ≡ length now.now.keys }
    ensures { OnOk result (AddsCells cache.now.keys now.now wanted.now list.old.items (length now.now.keys) list.new.items) }
{
    let keys = now.as_slice();
    let cols = now.cols() as usize;
    for place in 0..keys.len() {
        let (x, y) = ((place % cols) as u32, (place / cols) as u32);
        draw_place(list, cache, keys[place], x, y, wanted[place])?;
    }
    Ok(())
}

// The key at column `x` of row `y`, where the place is wanted.
fn draw_place(
    list: &mut Vec<Instr>,
    cache: &Cache,
    key: Key,
    x: u32,
    y: u32,
    is_wanted: bool,
) -> Result<(), NoMemory>
    requires coloured { IsColoured key }
    requires column { x < 512 }
    requires row { y < 256 }
    ensures { OnOk result (AddsPlace cache.now.keys key x y is_wanted list.old.items list.new.items) }
{
    if is_wanted {
        draw_cell(list, cache, key, x, y)?;
    }
    Ok(())
}

// The key at column `x` of row `y`: from its buffer, or by rectangles where it has none.
fn draw_cell(list: &mut Vec<Instr>, cache: &Cache, key: Key, x: u32, y: u32) -> Result<(), NoMemory>
    requires coloured { IsColoured key }
    requires column { x < 512 }
    requires row { y < 256 }
    ensures { OnOk result (AddsCell cache.now.keys key x y list.old.items list.new.items) }
{
    match cache.find(key) {
        Some(layer) => list.push(copy_to(layer, x, y))?,
        None => cover(list, 0, 8 * x, 16 * y, key)?,
    }
    Ok(())
}
