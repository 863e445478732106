//! Frames that draw what changed: each key on the screen has a glyph buffer, into which it is painted
//! once, and each cell that changed is copied from there (this project's own).

ghost use Rattle.std.specs.Prelude.{◌≡◌, map, ◌+◌, ◌*◌, ◌≤◌, ◌<◌, ℕ, [], ◌++◌, length, true, IfOk, OnOk, OnErr, Bool};
ghost use Rattle.gate_model.specs.picture.Buffers.{AreLayers, Renews, is_held, new_keys};
ghost use Rattle.gate_model.specs.session.Cost.{changes, cost, is_changed};
ghost use Rattle.gate_model.specs.picture.Layers.{draw, nothing};
ghost use Rattle.gate_model.specs.terminal.Screens.{AreColoured, IsColoured};
ghost use Rattle.gate_model.specs.picture.Shape.{OpensScreen, Shape};
ghost use Rattle.gate_model.specs.session.Steps.{IsScreenSize};
ghost use Rattle.frame_draw.specs.Along.{Along, Fits, Holds, IsLeft};
ghost use Rattle.frame_draw.specs.Fresh.{fresh};
ghost use Rattle.frame_draw.specs.Goes.{Goes};
ghost use Rattle.frame_draw.specs.Leads.{AreFlags};
ghost use Rattle.dirty_region.specs.Places.{place_of};
ghost use Rattle.frame_draw.specs.Moved.{old_places};
ghost use Rattle.frame_draw.specs.Recent.{AreBuffers, remembered};
ghost use Rattle.frame_draw.specs.Cells.{Places};

use crate::bands::band_of;
use crate::blanks::fill_blanks;
use crate::runs::{add_pair, copy_run, number_of, pairs_of};
use crate::strokes::{copy_band, copy_to, paint, scroll};
use crate::wanted::{Wanted, flags_of, is_few, is_next};
use dirty_region::{changes, left};
use gate_model::{Instr, Instrs, Key, NoMemory, Shown};
use glyph_cache::{Cache, SlotKind};
use std::alloc::Global;

/// The first frame of a session: it sizes the visible layer, 8 pixels a column and 16 a row, and draws
/// every place. `stamp` is that of its sync, which stands last. Refused, it leaves the cache with buffers
/// that nothing drew.
pub fn opening(
    alloc: Global,
    now: &Shown,
    cache: &mut Cache,
    stamp: u64,
) -> Result<Instrs, NoMemory>
    requires size { IsScreenSize now.now.cols now.now.rows }
    requires coloured { AreColoured now.now.keys }
    ensures shape { IfOk result (λ is. Shape now.now.cols now.now.rows is stamp) }
    ensures opens { IfOk result (λ is. OpensScreen is) }
    ensures drawn { IfOk result (λ is. cache.old.keys ≡ [] → AreLayers (draw nothing is) now.now cache.new.keys) }
    ensures keys { OnOk result (length (cache.old.keys ++ new_keys cache.old.keys now.now.keys) ≤ 1024 → cache.new.keys ≡ cache.old.keys ++ new_keys cache.old.keys now.now.keys) }
{
    let mut list = Vec::with_capacity(alloc, now.as_slice().len())?;
    list.push(Instr::Size {
        layer: 0,
        width: 8 * now.cols() as u32,
        height: 16 * now.rows() as u32,
    })?;
    draw(alloc, &mut list, cache, now, Wanted::All)?;
    list.push(Instr::Sync { stamp })?;
    Ok(Instrs::of(list))
}

/// A frame from the old screen to a new one of another size: it sizes the visible layer, which keeps its common part and is
/// clear elsewhere, gives every key of the new screen a buffer, and copies each place that the old screen hasn't or that
/// shows another key. `stamp` is that of its sync, which stands last. Refused, it leaves the cache with buffers that nothing
/// drew.
pub fn resized(
    alloc: Global,
    old: &Shown,
    new: &Shown,
    cache: &mut Cache,
    stamp: u64,
) -> Result<Instrs, NoMemory>
    requires size { IsScreenSize new.now.cols new.now.rows }
    requires coloured { AreColoured new.now.keys }
    ensures shape { IfOk result (λ is. Shape new.now.cols new.now.rows is stamp) }
    ensures opens { IfOk result (λ is. OpensScreen is) }
    ensures renews { IfOk result (λ is. Renews old.now cache.old.keys is new.now cache.new.keys) }
    ensures stays { OnOk result (length cache.old.keys ≤ length cache.new.keys) }
    ensures keys { OnOk result (length (cache.old.keys ++ new_keys cache.old.keys new.now.keys) ≤ 1024 → cache.new.keys ≡ cache.old.keys ++ new_keys cache.old.keys new.now.keys) }
    ensures few { IfOk result (λ is. length (cache.old.keys ++ new_keys cache.old.keys new.now.keys) ≤ 1024 → length is ≤ 2 + length (fresh old.now new.now) + 25 * length (new_keys cache.old.keys new.now.keys)) }
{
    let mut list = Vec::new(alloc);
    list.push(Instr::Size {
        layer: 0,
        width: 8 * new.cols() as u32,
        height: 16 * new.rows() as u32,
    })?;
    draw(alloc, &mut list, cache, new, Wanted::Unlike(old, new))?;
    list.push(Instr::Sync { stamp })?;
    Ok(Instrs::of(list))
}

/// A frame from the old screen to the new one. `shift` is by how many lines the whole screen was scrolled
/// up meanwhile: by that it is moved first, where something of it is left, and then a band of rows that moved beside
/// that, where its copy is fewer instructions. Then every key of the new screen
/// has a buffer, and each place that differs is copied from its own. `stamp` is that of the sync, which
/// stands last. Refused, it leaves the cache with buffers that nothing drew; where every key has a buffer
/// already, it leaves the cache's keys as they were.
pub fn frame(
    alloc: Global,
    old: &Shown,
    new: &Shown,
    shift: u32,
    cache: &mut Cache,
    stamp: u64,
) -> Result<Instrs, NoMemory>
    requires size { IsScreenSize new.now.cols new.now.rows }
    requires same_columns { old.now.cols ≡ new.now.cols }
    requires same_rows { old.now.rows ≡ new.now.rows }
    requires coloured { AreColoured new.now.keys }
    ensures shape { IfOk result (λ is. Shape new.now.cols new.now.rows is stamp) }
    ensures renews { IfOk result (λ is. Renews old.now cache.old.keys is new.now cache.new.keys) }
    ensures stays { OnOk result (length cache.old.keys ≤ length cache.new.keys) }
    ensures keys { OnOk result (length (cache.old.keys ++ new_keys cache.old.keys new.now.keys) ≤ 1024 → cache.new.keys ≡ cache.old.keys ++ new_keys cache.old.keys new.now.keys) }
    ensures cost { IfOk result (λ is. length (cache.old.keys ++ new_keys cache.old.keys new.now.keys) ≤ 1024 → length is ≤ cost (length (changes old.now new.now shift)) (length (new_keys cache.old.keys new.now.keys))) }
    ensures kept { OnErr result (new_keys cache.old.keys new.now.keys ≡ [] → cache.new.keys ≡ cache.old.keys) }
{
    let changed = changes(alloc, old, new, shift)?;
    let places = changed.as_slice();
    let mut drawn = Vec::with_capacity(alloc, places.len() + 2)?;
    scroll(&mut drawn, new.cols(), new.rows(), shift)?;
    draw_changed(alloc, &mut drawn, cache, old, new, shift, places)?;
    drawn.push(Instr::Sync { stamp })?;
    Ok(Instrs::of(drawn))
}

// How many keys are remembered with their buffers: one for each number of a key.
const RECENT: usize = 1_024;

// A key and the layer of its buffer.
#[derive(Clone, Copy)]
struct Held {
    key: Key,
    layer: i32,
}

// The places that changed, over the old screen scrolled up: those of a band of rows that moved by its copy, which comes first.
fn draw_changed(
    alloc: Global,
    list: &mut Vec<Instr>,
    cache: &mut Cache,
    old: &Shown,
    new: &Shown,
    shift: u32,
    places: &[(u16, u16)],
) -> Result<(), NoMemory>
    requires size { IsScreenSize new.now.cols new.now.rows }
    requires same_columns { old.now.cols ≡ new.now.cols }
    requires same_rows { old.now.rows ≡ new.now.rows }
    requires coloured { AreColoured new.now.keys }
    requires listed { places.now ≡ map (place_of new.now.cols) (changes old.now new.now shift) }
    ensures along { OnOk result (Along new.now list.old.items cache.old.keys (old_places old.now shift) (is_changed old.now new.now shift) (length new.now.keys) (length new.now.keys) list.new.items cache.new.keys) }
    ensures kept { new_keys cache.old.keys new.now.keys ≡ [] → cache.new.keys ≡ cache.old.keys }
    ensures full { OnOk result (length new.now.keys ≡ new.now.rows * new.now.cols) }
{
    if let Some(band) = band_of(old, new, shift, places.len()) {
        let rest = left(alloc, old, new, shift, band)?;
        if rest.as_slice().len() < places.len() {
            list.push(copy_band(new.cols(), band))?;
            return draw(alloc, list, cache, new, Wanted::Listed(rest.as_slice()));
        }
    }
    draw(alloc, list, cache, new, Wanted::Listed(places))
}

// Runs of blank places are filled, and the other places that are wanted are copied. Of a few places none is worth a fill.
fn draw(
    alloc: Global,
    list: &mut Vec<Instr>,
    cache: &mut Cache,
    now: &Shown,
    wanted: Wanted,
) -> Result<(), NoMemory>
    requires size { IsScreenSize now.now.cols now.now.rows }
    requires coloured { AreColoured now.now.keys }
    ensures along { (rest : Places) (copies : ℕ → Bool) → Fits now.now rest copies → IsLeft now.now.cols (length now.now.keys) copies wanted.entry 0 0
        → OnOk result (Along now.now list.old.items cache.old.keys rest copies (length now.now.keys) (length now.now.keys) list.new.items cache.new.keys) }
    ensures kept { new_keys cache.old.keys now.now.keys ≡ [] → cache.new.keys ≡ cache.old.keys }
    ensures full { length now.now.keys ≡ now.now.rows * now.now.cols }
{
    if is_few(wanted) {
        return draw_places(list, cache, now, wanted);
    }
    let mut flags = flags_of(alloc, wanted, now.as_slice().len(), now.cols() as usize)?;
    draw_flagged(list, cache, now, &mut flags)
}

// The same of places of which flags tell.
fn draw_flagged(
    list: &mut Vec<Instr>,
    cache: &mut Cache,
    now: &Shown,
    flags: &mut [bool],
) -> Result<(), NoMemory>
    requires size { IsScreenSize now.now.cols now.now.rows }
    requires coloured { AreColoured now.now.keys }
    requires all { length flags.now ≡ length now.now.keys }
    ensures along { (rest : Places) (copies : ℕ → Bool) → Fits now.now rest copies → AreFlags flags.old (length now.now.keys) copies
        → OnOk result (Along now.now list.old.items cache.old.keys rest copies (length now.now.keys) (length now.now.keys) list.new.items cache.new.keys) }
    ensures kept { new_keys cache.old.keys now.now.keys ≡ [] → cache.new.keys ≡ cache.old.keys }
{
    fill_blanks(list, flags, now)?;
    draw_runs(list, cache, now, flags)
}

// Place by place, row by row: the buffer of its key, and where the place is wanted a run that begins there and stands
// elsewhere already, or else a copy from the buffer. What was drawn before the place stands there already.
fn draw_runs(
    list: &mut Vec<Instr>,
    cache: &mut Cache,
    now: &Shown,
    wanted: &mut [bool],
) -> Result<(), NoMemory>
    requires size { IsScreenSize now.now.cols now.now.rows }
    requires coloured { AreColoured now.now.keys }
    requires all { length wanted.now ≡ length now.now.keys }
    ensures goes { OnOk result (Goes now.now list.old.items cache.old.keys wanted.old (length now.now.keys) (length now.now.keys) list.new.items wanted.new cache.new.keys) }
    ensures kept { new_keys cache.old.keys now.now.keys ≡ [] → cache.new.keys ≡ cache.old.keys }
    ensures full { length now.now.keys ≡ now.now.rows * now.now.cols }
{
    let (keys, cols) = (now.as_slice(), now.cols() as usize);
    let mut recent = [None; RECENT];
    let mut pairs = pairs_of(keys, wanted);
    let mut last = 0;
    for place in 0..keys.len() {
        let buffer = hold(list, cache, &mut recent, keys[place])?;
        copy_run(list, wanted, now, &pairs, place)?;
        if wanted[place] {
            list.push(copy_to(buffer.layer, place, cols))?;
            wanted[place] = false;
        }
        last = add_pair(&mut pairs, last, keys[place], place);
    }
    Ok(())
}

// Place by place, row by row: the buffer of its key, and a copy from there where the place is wanted. Each
// copy follows its buffer at once, since a later key may take the buffer.
fn draw_places(
    list: &mut Vec<Instr>,
    cache: &mut Cache,
    now: &Shown,
    wanted: Wanted,
) -> Result<(), NoMemory>
    requires size { IsScreenSize now.now.cols now.now.rows }
    requires coloured { AreColoured now.now.keys }
    ensures along { (rest : Places) (copies : ℕ → Bool) → Fits now.now rest copies → IsLeft now.now.cols (length now.now.keys) copies wanted.entry 0 0
        → OnOk result (Along now.now list.old.items cache.old.keys rest copies (length now.now.keys) (length now.now.keys) list.new.items cache.new.keys) }
    ensures kept { new_keys cache.old.keys now.now.keys ≡ [] → cache.new.keys ≡ cache.old.keys }
    ensures full { length now.now.keys ≡ now.now.rows * now.now.cols }
{
    let keys = now.as_slice();
    let cols = now.cols() as usize;
    let mut recent = [None; RECENT];
    let mut at = 0;
    for place in 0..keys.len() {
        let held = hold(list, cache, &mut recent, keys[place])?;
        if is_next(wanted, at, place, cols) {
            list.push(copy_to(held.layer, place, cols))?;
            at += 1;
        }
    }
    Ok(())
}

// The buffer of the key, painted where it is new. One of the keys with this number is remembered, so that
// the cache is seldom asked.
fn hold(
    list: &mut Vec<Instr>,
    cache: &mut Cache,
    recent: &mut [Option<Held>; RECENT],
    key: Key,
) -> Result<Held, NoMemory>
    requires coloured { IsColoured key }
    requires recent { AreBuffers cache.old.keys recent.old }
    ensures key { IfOk result (λ h. h.key ≡ key) }
    ensures held { IfOk result (λ h. Holds list.old.items cache.old.keys key h.layer list.new.items cache.new.keys) }
    ensures recent { OnOk result (AreBuffers cache.new.keys recent.new) }
    ensures kept { is_held cache.old.keys key ≡ true → cache.new.keys ≡ cache.old.keys }
{
    let at = number_of(key) as usize;
    if let Some(held) = recent[at] {
        if held.key == key {
            return Ok(held);
        }
    }
    take(list, cache, recent, at, key)
}

// The buffer that the cache has or makes for the key, which is remembered then.
fn take(
    list: &mut Vec<Instr>,
    cache: &mut Cache,
    recent: &mut [Option<Held>; RECENT],
    at: usize,
    key: Key,
) -> Result<Held, NoMemory>
    requires coloured { IsColoured key }
    requires recent { AreBuffers cache.old.keys recent.old }
    requires at { at < 1024 }
    ensures key { IfOk result (λ h. h.key ≡ key) }
    ensures held { IfOk result (λ h. Holds list.old.items cache.old.keys key h.layer list.new.items cache.new.keys) }
    ensures recent { OnOk result (AreBuffers cache.new.keys recent.new) }
    ensures kept { is_held cache.old.keys key ≡ true → cache.new.keys ≡ cache.old.keys }
{
    let slot = cache.buffer(key)?;
    paint(list, slot, key)?;
    let held = Held {
        key,
        layer: slot.layer,
    };
    remember(recent, at, held, slot.kind);
    Ok(held)
}

// A key that took the buffer of another makes all others forgotten.
fn remember(recent: &mut [Option<Held>; RECENT], at: usize, held: Held, kind: SlotKind)
    requires { at < 1024 }
    ensures { recent.new ≡ remembered kind recent.old at held }
{
    match kind {
        SlotKind::Held | SlotKind::Made => {}
        SlotKind::Reused => *recent = [None; RECENT],
    }
    recent[at] = Some(held);
}
