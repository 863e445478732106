//! Halves of characters that take two places, which become spaces where their other half is gone.

ghost use Rattle.std.specs.Prelude.{◌≡◌, ◌+◌, ◌<◌, ◌≤◌, ◌==◌, ◌&&◌};
ghost use Rattle.gate_model.specs.terminal.Cells.{cell_at, is_mended, left_half, mended, mended_at, right_half};
ghost use Rattle.gate_model.specs.terminal.MendLaws.{AreMendedBeside, AreMendedBut, mended_before, mended_behind};
ghost use Rattle.screen_grid.specs.Mending.{HasMended};

use crate::Grid;
use gate_model::{Cell, Half};

impl Grid {
    /// Each half that stands without its other half becomes a space in the same colours (this project's own rule).
    pub fn mend(&mut self)
        ensures cells { self.new ≡ mended self.old }
    {
        if self.halves {
            self.mend_rows();
        }
    }

    /// The same, where such halves can stand in row `y` alone, which is in the grid (this project's own rule).
    pub fn mend_row(&mut self, y: u16)
        requires row { y < self.old.rows }
        requires others { AreMendedBut y self.old }
        ensures cells { self.new ≡ mended self.old }
    {
        if self.halves {
            self.mend_places(y);
        }
    }

    /// The same, where such halves can stand only in the column before `from` and in the column `to` of row `y`. The row
    /// is in the grid, and `from` is at most the number of columns (this project's own rule).
    pub fn mend_beside(&mut self, y: u16, from: u16, to: u16)
        requires row { y < self.old.rows }
        requires column { from ≤ self.old.cols }
        requires others { AreMendedBeside y from to self.old }
        ensures cells { self.new ≡ mended self.old }
    {
        if self.halves {
            self.mend_before(from, y);
            self.mend_behind(to, y);
        }
    }

    // Mends each row.
    fn mend_rows(&mut self)
        ensures { self.new ≡ mended self.old }
    {
        let lines = self.lines;
        for y in 0..lines {
            self.mend_places(y);
        }
    }

    // Mends each place of row `y`.
    fn mend_places(&mut self, y: u16)
        requires row { y < self.old.rows }
        ensures { HasMended y self.old.cols self.old self.new }
    {
        let columns = self.columns;
        for x in 0..columns {
            self.mend_at(x, y);
        }
    }

    // Mends the place before column `x` of row `y`, where there is one.
    fn mend_before(&mut self, x: u16, y: u16)
        requires column { x ≤ self.old.cols }
        requires row { y < self.old.rows }
        ensures cells { self.new ≡ mended_before x y self.old }
        ensures rows { self.new.rows ≡ self.old.rows }
    {
        if 1 <= x {
            self.mend_at(x - 1, y);
        }
    }

    // Mends the place at column `x` of row `y`, where there is one.
    fn mend_behind(&mut self, x: u16, y: u16)
        requires row { y < self.old.rows }
        ensures { self.new ≡ mended_behind x y self.old }
    {
        if x < self.columns {
            self.mend_at(x, y);
        }
    }

    // Mends one place: a half without its other half becomes a space in its colours.
    fn mend_at(&mut self, x: u16, y: u16)
        requires column { x < self.old.cols }
        requires row { y < self.old.rows }
        ensures { self.new ≡ mended_at x y self.old }
    {
        if self.is_mended(x, y) {
            return;
        }
        let cell = self.cell(x, y);
        self.put(
            x,
            y,
            Cell {
                ch: ' ',
                half: Half::Whole,
                ..cell
            },
        );
    }

    // Whether the cell at a place is whole, or stands beside its other half.
    fn is_mended(&self, x: u16, y: u16) -> bool
        requires column { x < self.now.cols }
        requires row { y < self.now.rows }
        ensures { result ≡ is_mended x y self.now }
    {
        let cell = self.cell(x, y);
        match cell.half {
            Half::Whole => true,
            Half::Left => (x as u32) + 1 < self.columns as u32 && self.has_right(x + 1, y, cell.ch),
            Half::Right => 1 <= x && self.has_left(x - 1, y, cell.ch),
        }
    }

    // Whether a right half of the character stands at a place.
    fn has_right(&self, x: u16, y: u16, ch: char) -> bool
        requires column { x < self.now.cols }
        requires row { y < self.now.rows }
        ensures { result ≡ (right_half (cell_at x y self.now).half && ch == (cell_at x y self.now).ch) }
    {
        let cell = self.cell(x, y);
        matches!(cell.half, Half::Right) && ch == cell.ch
    }

    // Whether a left half of the character stands at a place.
    fn has_left(&self, x: u16, y: u16, ch: char) -> bool
        requires column { x < self.now.cols }
        requires row { y < self.now.rows }
        ensures { result ≡ (left_half (cell_at x y self.now).half && (cell_at x y self.now).ch == ch) }
    {
        let cell = self.cell(x, y);
        matches!(cell.half, Half::Left) && cell.ch == ch
    }
}
