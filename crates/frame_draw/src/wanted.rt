ghost use Rattle.std.specs.Prelude.{◌≡◌, ◌≤◌, ℕ, length, Bool, not, IfOk};
ghost use Rattle.gate_model.specs.picture.Buffers.{is_same_key};
ghost use Rattle.frame_draw.specs.Along.{IsLeft, is_marked, is_next};
ghost use Rattle.frame_draw.specs.Leads.{AreFlags};
ghost use Rattle.frame_draw.specs.Fresh.{is_fresh};

use gate_model::{Key, NoMemory, Shown};
use std::alloc::Global;

/// The places of a screen that are copied, counted row by row.
#[derive(Clone, Copy)]
pub(crate) enum Wanted<'a> {
    /// Every place.
    All,
    /// Those of a list of columns and rows, row by row.
    Listed(&'a [(u16, u16)]),
    /// Those that a screen of another size hasn't, or that show another key.
    Unlike(&'a Shown, &'a Shown),
}

// Whether so few places are copied that none is worth a fill.
pub(crate) fn is_few(wanted: Wanted) -> bool {
    match wanted {
        Wanted::Listed(list) => list.len() < 4,
        Wanted::All | Wanted::Unlike(..) => false,
    }
}

// Whether the place is the next one that is copied, where the first `at` of the list were.
pub(crate) fn is_next(wanted: Wanted, at: usize, place: usize, cols: usize) -> bool
    requires some { 1 ≤ cols }
    requires few { cols ≤ 512 }
    ensures { result ≡ is_next wanted.entry at place cols }
{
    match wanted {
        Wanted::All => true,
        Wanted::Listed(list) => match list.get(at) {
            Some(&(x, y)) => y as usize * cols + x as usize == place,
            None => false,
        },
        Wanted::Unlike(old, new) => is_fresh(old, new, place, cols),
    }
}

// Whether the old screen hasn't the place of one with so many columns, or another key is there now.
fn is_fresh(old: &Shown, new: &Shown, place: usize, cols: usize) -> bool
    requires { 1 ≤ cols }
    ensures { result ≡ is_fresh cols old.now new.now.keys place }
{
    let (x, y) = (place % cols, place / cols);
    let keys = new.as_slice();
    if keys.len() <= place || old.cols() as usize <= x || old.rows() as usize <= y {
        return true;
    }
    differ(keys[place], old.key(x as u16, y as u16))
}

pub(crate) fn differ(a: Key, b: Key) -> bool
    ensures { result ≡ not (is_same_key a b) }
{
    a != b
}

// A flag for each of the places, row by row.
pub(crate) fn flags_of(
    alloc: Global,
    wanted: Wanted,
    total: usize,
    cols: usize,
) -> Result<Vec<bool>, NoMemory>
    requires some { 1 ≤ cols }
    requires few { cols ≤ 512 }
    requires small { total ≤ 131072 }
    ensures all { IfOk result (λ flags. length flags.items ≡ total) }
    ensures told { IfOk result (λ flags. (copies : ℕ → Bool) → IsLeft cols total copies wanted.entry 0 0 → AreFlags flags.items total copies) }
{
    match wanted {
        Wanted::Listed(list) => flags_of_list(alloc, list, total, cols),
        Wanted::All | Wanted::Unlike(..) => flags_of_each(alloc, wanted, total, cols),
    }
}

// The same of those of a list of columns and rows: no other place is looked at.
fn flags_of_list(
    alloc: Global,
    list: &[(u16, u16)],
    total: usize,
    cols: usize,
) -> Result<Vec<bool>, NoMemory>
    requires few { cols ≤ 512 }
    ensures all { IfOk result (λ flags. length flags.items ≡ total) }
    ensures told { IfOk result (λ flags. AreFlags flags.items total (is_marked cols list.now)) }
{
    let mut flags = vec![in alloc; false; total]?;
    for &entry in list {
        let place = entry.1 as usize * cols + entry.0 as usize;
        if place < flags.len() {
            flags[place] = true;
        }
    }
    Ok(flags)
}

// The same, place by place.
fn flags_of_each(
    alloc: Global,
    wanted: Wanted,
    total: usize,
    cols: usize,
) -> Result<Vec<bool>, NoMemory>
    requires some { 1 ≤ cols }
    requires few { cols ≤ 512 }
    requires small { total ≤ 131072 }
    ensures all { IfOk result (λ flags. length flags.items ≡ total) }
    ensures told { IfOk result (λ flags. (copies : ℕ → Bool) → IsLeft cols total copies wanted.entry 0 0 → AreFlags flags.items total copies) }
{
    let mut flags = Vec::with_capacity(alloc, total)?;
    let mut at = 0;
    for place in 0..total {
        let on = is_next(wanted, at, place, cols);
        flags.push(on)?;
        at += usize::from(on);
    }
    Ok(flags)
}
