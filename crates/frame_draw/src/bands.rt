//! Bands of rows that moved: one copy of a band brings its rows to where they stand now. Which band is worth a copy is a
//! guess, of which nothing is promised but that the band lies on the screen.

ghost use Rattle.std.specs.Prelude.{◌≡◌, ◌<◌, ◌≤◌, IfSome};
ghost use Rattle.dirty_region.specs.Bands.{IsBand};

use crate::blanks::is_blank;
use crate::runs::number_of;
use crate::wanted::differ;
use dirty_region::Band;
use gate_model::{Key, Shown};

/// The fewest changed places of a frame over which a band is looked for.
const FEWEST_CHANGED: usize = 8;

/// What a row, or a band, has to save at least.
const LEAST_SAVED: u32 = 3;

/// The most rows of a screen.
const MOST_ROWS: usize = 256;

/// How many rows are remembered by the sum of their keys.
const SUMS: usize = 1_024;

// Rows one below the other that are looked at together, and what it saves to copy them.
#[derive(Clone, Copy)]
struct Run {
    start: usize,
    end: usize,
    saved: i64,
}

/// The band of rows that is most likely worth a copy, over the old screen scrolled up by so many lines, of which so many
/// places changed. None of a few changes is.
pub(crate) fn band_of(old: &Shown, new: &Shown, shift: u32, changed: usize) -> Option<Band>
    ensures { IfSome result (λ b. IsBand new.now.rows b) }
{
    if changed < FEWEST_CHANGED {
        return None;
    }
    let costs = costs_of(old, new, shift);
    match likeliest(old, new, shift, &costs) {
        Some(across) => band_at(
            best_run(old, new, shift, &costs, across),
            across,
            new.rows(),
        ),
        None => None,
    }
}

// What each row costs where no band is copied.
fn costs_of(old: &Shown, new: &Shown, shift: u32) -> [u32; MOST_ROWS] {
    let mut costs = [0; MOST_ROWS];
    for y in 0..rows_of(new) {
        costs[y] = cost_of(before(old, shift, y), row_of(new, y));
    }
    costs
}

// By how many rows most of those that changed have moved: 256 and the row where they stood, less the row where they stand.
fn likeliest(old: &Shown, new: &Shown, shift: u32, costs: &[u32; MOST_ROWS]) -> Option<usize> {
    let stood = rows_by_sum(old, shift, costs);
    let mut votes = [0_u32; 2 * MOST_ROWS];
    let (mut best, mut most) = (None, 0);
    for y in 0..rows_of(new) {
        let after = row_of(new, y);
        if let Some(from) = moved_from(old, shift, after, &stood, y, costs[y]) {
            let across = MOST_ROWS + from as usize - y;
            votes[across] = votes[across].saturating_add(costs[y]);
            if most < votes[across] {
                most = votes[across];
                best = Some(across);
            }
        }
    }
    best
}

// Where the row stood that stands at `y` now, if it is worth a copy and stood elsewhere.
fn moved_from(
    old: &Shown,
    shift: u32,
    after: &[Key],
    stood: &[Option<u8>; SUMS],
    y: usize,
    cost: u32,
) -> Option<u8> {
    if cost < LEAST_SAVED {
        return None;
    }
    let from = stood[sum_of(after)]?;
    if from as usize == y || cost_of(before(old, shift, from as usize), after) != 0 {
        return None;
    }
    Some(from)
}

// The rows of the old screen that change, by the sum of their keys; of more with one sum the last.
fn rows_by_sum(old: &Shown, shift: u32, costs: &[u32; MOST_ROWS]) -> [Option<u8>; SUMS] {
    let mut rows = [None; SUMS];
    for y in 0..rows_of(old) {
        if 0 < costs[y] {
            rows[sum_of(before(old, shift, y))] = Some(y as u8);
        }
    }
    rows
}

// The rows whose copy saves most, where all move by as many.
fn best_run(old: &Shown, new: &Shown, shift: u32, costs: &[u32; MOST_ROWS], across: usize) -> Run {
    let mut run = Run {
        start: 0,
        end: 0,
        saved: 0,
    };
    let mut best = run;
    for y in 0..rows_of(new) {
        if let Some(from) = y.saturating_add(across).checked_sub(MOST_ROWS) {
            if from < rows_of(old) {
                let left = cost_of(before(old, shift, from), row_of(new, y));
                run = longer(run, y, i64::from(costs[y]) - i64::from(left));
                best = if best.saved < run.saved { run } else { best };
            }
        }
    }
    best
}

// The run with one row more, or that row alone where the run saves nothing.
fn longer(run: Run, y: usize, saved: i64) -> Run
    requires { y < 256 }
{
    if run.saved <= 0 {
        return Run {
            start: y,
            end: y + 1,
            saved,
        };
    }
    Run {
        start: run.start,
        end: y + 1,
        saved: run.saved.saturating_add(saved),
    }
}

// The band of the run's rows. One that would take a row to the top from below and reach the last row is left one row short:
// who looks on takes that for lines that were scrolled away, and these `shift` alone tells.
fn band_at(run: Run, across: usize, rows: u16) -> Option<Band>
    ensures { IfSome result (λ b. IsBand rows b) }
{
    let (top, rows) = (run.start, rows as usize);
    let from = top.saturating_add(across).checked_sub(MOST_ROWS)?;
    let length = run.end.checked_sub(top)?;
    let is_scroll = top == 0 && 0 < from && from.saturating_add(length) == rows;
    let height = length.saturating_sub(usize::from(is_scroll));
    if run.saved < i64::from(LEAST_SAVED)
        || rows < top.saturating_add(height)
        || rows < from.saturating_add(height)
    {
        return None;
    }
    Some(Band {
        top: top as u16,
        from: from as u16,
        height: height as u16,
    })
}

// The instructions that it takes to draw the one row over the other: one for each place, but for the blank ones together.
fn cost_of(before: &[Key], after: &[Key]) -> u32 {
    let (mut cost, mut blanks) = (0_u32, 0);
    for x in 0..before.len().min(after.len()) {
        if differ(before[x], after[x]) {
            if is_blank(after[x]) {
                blanks = 2;
            } else {
                cost = cost.saturating_add(1);
            }
        }
    }
    cost.saturating_add(blanks)
}

// Some number of a row's keys, most of which differ.
fn sum_of(row: &[Key]) -> usize
    ensures { result < 1024 }
{
    let mut sum = 0_u32;
    for &key in row {
        sum = sum.wrapping_mul(31).wrapping_add(number_of(key) as u32);
    }
    sum as usize % SUMS
}

// A row of the old screen, scrolled up by so many lines.
fn before(old: &Shown, shift: u32, y: usize) -> &[Key]
    requires { y < 256 }
{
    let (rows, shift) = (old.rows() as usize, shift as usize);
    if shift < rows && y + shift < rows {
        row_of(old, y + shift)
    } else {
        row_of(old, y)
    }
}

// How many rows the screen has.
fn rows_of(shown: &Shown) -> usize
    ensures { result ≤ 256 }
{
    (shown.rows() as usize).min(MOST_ROWS)
}

// The keys of a row, or none where there is no such row.
fn row_of(shown: &Shown, y: usize) -> &[Key]
    requires { y < 65536 }
{
    let cols = shown.cols() as usize;
    let start = y * cols;
    shown.as_slice().get(start..start + cols).unwrap_or(&[])
}
