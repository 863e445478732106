ghost use Rattle.std.specs.Prelude.{◌≡◌, ◌+◌, ◌-◌, ◌*◌, ◌<◌, ◌≤◌, ◌^◌, IfOk, length, map, replicate, slice_set, slice_range, get_or};
ghost use Rattle.gate_model.specs.terminal.Cells.{blank, moved_left, moved_right, with_part};
ghost use Rattle.screen_grid.specs.Runs.{like};

use crate::runs::{BLANK, draw, erase, move_left, move_right};
use gate_model::{Cell, NoMemory};
use std::alloc::Global;
use std::marker::Model;

// How many times the cells the room is that they move through.
const ROOM: usize = 2;

/// A run of cells of a fixed number, which contracts see as their list. It is a window of a larger run, so
/// that all of them move towards the start without a copy, but where the window has come to the end of
/// the room.
#[derive(Drop)]
pub(crate) struct Window {
    held: Vec<Cell>,
    base: usize,
    size: usize,
}

impl Model for Window {
    ghost use Rattle.std.specs.Prelude.{◌+◌, ◌≤◌, List, length, take, drop};
    ghost use Rattle.gate_model.specs.declared.cell.Cell.{Cell};

    ghost Value = { List Cell };

    ghost view = { λ w. take w.size (drop w.base w.held.items) };

    ghost invariant = { λ w. w.base + w.size ≤ length w.held.items };
}

impl Window {
    /// So many blank cells. Refused for want of memory alone.
    pub(crate) fn new(alloc: Global, count: usize) -> Result<Window, NoMemory>
        requires { count ≤ 2 ^ 32 }
        ensures { IfOk result (λ w. w ≡ replicate count blank) }
    {
        let held = blanks(alloc, ROOM * count)?;
        Ok(Window {
            held,
            base: 0,
            size: count,
        })
    }

    /// The same cells. Refused for want of memory alone.
    pub(crate) fn copy(&self, alloc: Global) -> Result<Window, NoMemory>
        ensures { IfOk result (λ w. w ≡ self.now) }
    {
        let held = Vec::from_slice(alloc, &self.held)?;
        Ok(Window {
            held,
            base: self.base,
            size: self.size,
        })
    }

    /// The cell at a place.
    pub(crate) fn cell(&self, at: usize) -> Cell
        requires { at < length self.now }
        ensures { result ≡ get_or self.now at blank }
    {
        self.held[self.base + at]
    }

    /// Puts a cell at a place.
    pub(crate) fn put(&mut self, at: usize, cell: Cell)
        requires { at < length self.old }
        ensures { self.new ≡ slice_set self.old at cell }
    {
        self.held[self.base + at] = cell;
    }

    /// Blanks the cells from `start` up to, not including, `end`.
    pub(crate) fn erase(&mut self, start: usize, end: usize)
        requires order { start ≤ end }
        requires within { end ≤ length self.old }
        ensures { self.new ≡ with_part start end (replicate (end - start) blank) self.old }
    {
        erase(&mut self.held[self.base + start..self.base + end]);
    }

    /// Puts cells like `pen` from a place on, one for each byte of `text`, with the byte as its character.
    pub(crate) fn put_run(&mut self, at: usize, text: &[u8], pen: Cell)
        requires within { at + length text.now ≤ length self.old }
        ensures { self.new ≡ with_part at (at + length text.now) (map (like pen) text.now) self.old }
    {
        let start = self.base + at;
        draw(&mut self.held[start..start + text.len()], text, pen);
    }

    /// Moves the cells from `start` up to, not including, `end` towards `start` by `n`.
    pub(crate) fn move_left(&mut self, start: usize, end: usize, n: usize)
        requires order { start ≤ end }
        requires within { end ≤ length self.old }
        ensures { self.new ≡ with_part start end (moved_left n (slice_range self.old start end)) self.old }
    {
        move_left(&mut self.held[self.base + start..self.base + end], n);
    }

    /// Moves them towards `end` by `n`.
    pub(crate) fn move_right(&mut self, start: usize, end: usize, n: usize)
        requires order { start ≤ end }
        requires within { end ≤ length self.old }
        ensures { self.new ≡ with_part start end (moved_right n (slice_range self.old start end)) self.old }
    {
        move_right(&mut self.held[self.base + start..self.base + end], n);
    }

    /// Moves all cells towards the start by `n`, and blanks come in at the end.
    pub(crate) fn slide(&mut self, n: usize)
        ensures { self.new ≡ moved_left n self.old }
    {
        let gone = n.min(self.size);
        let end = self.base + self.size;
        if gone <= self.held.len() - end {
            erase(&mut self.held[end..end + gone]);
            self.base += gone;
            return;
        }
        // The window has come to the end of the room, and begins anew.
        self.held.copy_within(self.base + gone..end, 0);
        erase(&mut self.held[self.size - gone..self.size]);
        self.base = 0;
    }
}

// So many blank cells.
fn blanks(alloc: Global, count: usize) -> Result<Vec<Cell>, NoMemory>
    ensures { IfOk result (λ cells. cells.items ≡ replicate count blank) }
{
    Ok(vec![in alloc; BLANK; count]?)
}
