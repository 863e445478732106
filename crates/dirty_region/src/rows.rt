ghost use Rattle.std.specs.Prelude.{◌≡◌, ◌+◌, ◌^◌, ◌<◌, ◌++◌, length, map, not, IfOk, OnOk};
ghost use Rattle.gate_model.specs.picture.Buffers.{is_same_key};
ghost use Rattle.gate_model.specs.session.Cost.{changes, old_row};
ghost use Rattle.dirty_region.specs.Bands.{IsBand, band_row, left};
ghost use Rattle.dirty_region.specs.Places.{differing, place_of};

use crate::{Band, Changes};
use gate_model::{Key, NoMemory, Shown};
use std::alloc::Global;

/// The places, row by row, where the new screen differs from the old one scrolled up by `shift` lines. A
/// row of the new screen is compared with the one that stood so many rows below it; where there is none,
/// or where no row would be left, with the same row.
pub fn changes(alloc: Global, old: &Shown, new: &Shown, shift: u32) -> Result<Changes, NoMemory>
    requires cols { old.now.cols ≡ new.now.cols }
    requires rows { old.now.rows ≡ new.now.rows }
    ensures { IfOk result (λ c. c ≡ map (place_of new.now.cols) (changes old.now new.now shift)) }
{
    let columns = new.cols() as usize;
    let (before, after) = (old.as_slice(), new.as_slice());
    let mut held = Vec::new(alloc);
    for y in 0..new.rows() {
        let from = old_row(shift, new.rows(), y) as usize * columns;
        let to = y as usize * columns;
        add_row(
            &mut held,
            &before[from..from + columns],
            &after[to..to + columns],
            y,
        )?;
    }
    Ok(Changes { held })
}

/// The places, row by row, where the new screen differs from the old one scrolled up by `shift` lines, once the band of
/// its rows was copied to where it stands.
pub fn left(
    alloc: Global,
    old: &Shown,
    new: &Shown,
    shift: u32,
    band: Band,
) -> Result<Changes, NoMemory>
    requires cols { old.now.cols ≡ new.now.cols }
    requires rows { old.now.rows ≡ new.now.rows }
    requires band { IsBand new.now.rows band }
    ensures { IfOk result (λ c. c ≡ map (place_of new.now.cols) (left old.now new.now shift band)) }
{
    let columns = new.cols() as usize;
    let (before, after) = (old.as_slice(), new.as_slice());
    let mut held = Vec::new(alloc);
    for y in 0..new.rows() {
        let from = old_row(shift, new.rows(), band_row(band, new.rows(), y)) as usize * columns;
        let to = y as usize * columns;
        add_row(
            &mut held,
            &before[from..from + columns],
            &after[to..to + columns],
            y,
        )?;
    }
    Ok(Changes { held })
}

// The row that a row shows once the band was copied, of so many.
fn band_row(band: Band, rows: u16, y: u16) -> u16
    requires band { IsBand rows band }
    requires within { y < rows }
    ensures row { result ≡ band_row band y }
    ensures within { result < rows }
{
    if band.top <= y && y < band.top + band.height {
        band.from + (y - band.top)
    } else {
        y
    }
}

// The row of the old screen that a row of the new one is compared with.
fn old_row(shift: u32, rows: u16, y: u16) -> u16
    requires { y < rows }
    ensures row { result ≡ old_row shift rows y }
    ensures within { result < rows }
{
    if shift < rows as u32 && y as u32 + shift < rows as u32 {
        y + shift as u16
    } else {
        y
    }
}

// The places of row `y` whose keys differ.
fn add_row(
    held: &mut Vec<(u16, u16)>,
    before: &[Key],
    after: &[Key],
    y: u16,
) -> Result<(), NoMemory>
    requires width { length before.now ≡ length after.now }
    requires columns { length after.now < 2 ^ 16 }
    ensures { OnOk result (held.new.items ≡ held.old.items ++ differing before.now after.now y (length after.now)) }
{
    for x in 0..after.len() {
        if differ(after[x], before[x]) {
            held.push((x as u16, y))?;
        }
    }
    Ok(())
}

fn differ(a: Key, b: Key) -> bool
    ensures { result ≡ not (is_same_key a b) }
{
    a != b
}
