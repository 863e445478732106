//! Runs of blank places: a rectangle of their paper stands for the copies of their cells.

ghost use Rattle.std.specs.Prelude.{◌≡◌, ◌+◌, ◌*◌, ◌<◌, ◌≤◌, ℕ, length, slice_index_or, IfOk, OnOk};
ghost use Rattle.gate_model.specs.picture.Pictures.{key_at};
ghost use Rattle.gate_model.specs.session.Steps.{IsScreenSize};
ghost use Rattle.gate_model.specs.terminal.Screens.{AreColoured};
ghost use Rattle.frame_draw.specs.Along.{count_below, is_on};
ghost use Rattle.frame_draw.specs.Leads.{AreStruck, IsRun, IsStrip, Leads, is_blank};

use crate::strokes::fill_cells;
use crate::wanted::differ;
use gate_model::{Instr, Key, NoMemory, Shown};

/// The fewest wanted places of a strip that is filled, or of a run that is copied: a rectangle and its fill take no more
/// than two copies.
pub(crate) const FEWEST: usize = 2;

/// Fills strips of blank places of one paper, each a part of a row or whole rows, where some of them are wanted. They are
/// wanted no more. Over layers on which every other place shows its key, these show theirs then too, and there are no more
/// instructions than there were copies.
pub fn fill_blanks(list: &mut Vec<Instr>, wanted: &mut [bool], now: &Shown) -> Result<(), NoMemory>
    requires size { IsScreenSize now.now.cols now.now.rows }
    requires coloured { AreColoured now.now.keys }
    requires all { length wanted.now ≡ length now.now.keys }
    ensures { OnOk result (Leads now.now list.old.items wanted.old list.new.items wanted.new) }
{
    let mut place = 0;
    while place < now.as_slice().len() {
        place = fill_strip(list, wanted, now, place)?;
    }
    Ok(())
}

// Fills the strip of blank places that begins at the place, where it is worth it, and answers the place behind it.
fn fill_strip(
    list: &mut Vec<Instr>,
    wanted: &mut [bool],
    now: &Shown,
    place: usize,
) -> Result<usize, NoMemory>
    requires size { IsScreenSize now.now.cols now.now.rows }
    requires coloured { AreColoured now.now.keys }
    requires all { length wanted.now ≡ length now.now.keys }
    requires inside { place < length now.now.keys }
    ensures on { IfOk result (λ end. (place < end) × (end ≤ length now.now.keys)) }
    ensures fills { OnOk result (Leads now.now list.old.items wanted.old list.new.items wanted.new) }
{
    let (keys, cols) = (now.as_slice(), now.cols() as usize);
    let key = keys[place];
    if !wanted[place] || !is_blank(key) {
        return Ok(place + 1);
    }
    let (width, height) = strip_of(place, run_end(keys, place), cols);
    let end = place + width * height;
    if FEWEST <= count(wanted, place, end) {
        fill_cells(list, cols, place, width, height, key.paper)?;
        strike(wanted, place, end);
    }
    Ok(end)
}

// A space, of which the paper alone is seen.
pub(crate) fn is_blank(key: Key) -> bool
    ensures { result ≡ is_blank key }
{
    key.face == ' ' && !key.under
}

// The end of the run of places from one on that have its key.
fn run_end(keys: &[Key], place: usize) -> usize
    requires { place < length keys.now }
    ensures { IsRun keys.now place result }
{
    for end in place + 1..keys.len() {
        if differ(keys[end], keys[place]) {
            return end;
        }
    }
    keys.len()
}

// The columns and rows of the strip that a run of places begins with: whole rows where it has them.
fn strip_of(place: usize, end: usize, cols: usize) -> (usize, usize)
    requires columns { 1 ≤ cols }
    requires some { place < end }
    ensures strip { IsStrip cols place result.0 result.1 }
    ensures within { place + result.0 * result.1 ≤ end }
{
    let (column, length) = (place % cols, end - place);
    if column == 0 && cols <= length {
        (cols, length / cols)
    } else {
        (length.min(cols - column), 1)
    }
}

// How many places from one up to another are wanted.
pub(crate) fn count(wanted: &[bool], from: usize, to: usize) -> usize
    requires order { from ≤ to }
    requires end { to ≤ length wanted.now }
    ensures { count_below (is_on wanted.now) from + result ≡ count_below (is_on wanted.now) to }
{
    let mut count = 0;
    for place in from..to {
        count += usize::from(wanted[place]);
    }
    count
}

// The places from one up to another are wanted no more.
pub(crate) fn strike(wanted: &mut [bool], from: usize, to: usize)
    requires order { from ≤ to }
    requires end { to ≤ length wanted.now }
    ensures { AreStruck wanted.old wanted.new from to }
{
    for place in from..to {
        wanted[place] = false;
    }
}
