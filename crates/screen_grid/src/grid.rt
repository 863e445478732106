ghost use Rattle.std.specs.Prelude.{◌≡◌, ◌+◌, ◌*◌, ◌<◌, ◌≤◌, ◌↔◌, IfOk, IsTrue, length, OnErr, OnOk};
ghost use Rattle.gate_model.specs.terminal.Cells.{blank_grid, cell_at, kept_at, place, put, erased, inserted, deleted, resized, scrolled_up, scrolled_down};
ghost use Rattle.screen_grid.specs.Runs.{put_run};

use crate::runs::{BLANK, noted};
use crate::window::Window;
use gate_model::{Cell, NoMemory};
use std::alloc::Global;
use std::marker::Model;

/// A rectangle of cells, which contracts see as a `CellGrid`: its columns, its rows, and its cells row
/// by row. Columns and rows are counted from 0.
#[derive(Drop)]
pub struct Grid {
    pub(crate) columns: u16,
    pub(crate) lines: u16,
    pub(crate) held: Window,
    // False only where every cell is of a character of one place, so that nothing is to be mended.
    pub(crate) halves: bool,
}

impl Model for Grid {
    ghost use Rattle.gate_model.specs.terminal.Cells.{CellGrid};
    ghost use Rattle.screen_grid.specs.Held.{cells_of, IsHeld};

    ghost Value = { CellGrid };

    ghost view = { cells_of };

    ghost invariant = { IsHeld };
}

impl Grid {
    /// A grid of `cols` columns and `rows` rows, of any number, with blank cells: a space with ink 7,
    /// paper 0 and no underline. Refused for want of memory alone (this project's own rule).
    pub fn new(alloc: Global, cols: u16, rows: u16) -> Result<Grid, NoMemory>
        ensures blank { IfOk result (λ g. g ≡ blank_grid cols rows) }
    {
        let count = rows as usize * cols as usize;
        let held = Window::new(alloc, count)?;
        Ok(Grid {
            columns: cols,
            lines: rows,
            held,
            halves: false,
        })
    }

    /// A grid of the same size with the same cells. Refused for want of memory alone (this project's own
    /// rule).
    pub fn copy(&self, alloc: Global) -> Result<Grid, NoMemory>
        ensures same { IfOk result (λ g. g ≡ self.now) }
    {
        let held = self.held.copy(alloc)?;
        Ok(Grid {
            columns: self.columns,
            lines: self.lines,
            held,
            halves: self.halves,
        })
    }

    /// Whether the grid has a place at column `x` of row `y`: the test of the other calls'
    /// conditions (this project's own rule).
    pub fn fits(&self, x: u16, y: u16) -> bool
        ensures in_grid { IsTrue result ↔ ((x < self.now.cols) × (y < self.now.rows)) }
    {
        x < self.columns && y < self.lines
    }

    /// The cell at column `x` of row `y`. The place is in the grid (this project's own rule).
    pub fn cell(&self, x: u16, y: u16) -> Cell
        requires column { x < self.now.cols }
        requires row { y < self.now.rows }
        ensures cell { result ≡ cell_at x y self.now }
    {
        self.held.cell(self.place(x, y))
    }

    /// Puts a cell at column `x` of row `y`. The place is in the grid (this project's own rule).
    pub fn put(&mut self, x: u16, y: u16, cell: Cell)
        requires column { x < self.old.cols }
        requires row { y < self.old.rows }
        ensures cells { self.new ≡ put x y cell self.old }
    {
        let place = self.place(x, y);
        self.halves = noted(self.halves, cell);
        self.held.put(place, cell);
    }

    /// Puts cells like `pen` into row `y` from column `x` on, one for each byte of `text`, with the byte
    /// as its character. The row is in the grid, and so are the columns (this project's own rule).
    pub fn put_run(&mut self, x: u16, y: u16, text: &[u8], pen: Cell)
        requires row { y < self.old.rows }
        requires columns { x + length text.now ≤ self.old.cols }
        ensures cells { self.new ≡ put_run x y text.now pen self.old }
    {
        let start = self.place(x, y);
        self.halves = noted(self.halves, pen);
        self.held.put_run(start, text, pen);
    }

    /// Blanks the cells of row `y` from column `from` up to, not including, column `to`. The row and
    /// the columns are in the grid, and `from` is at most `to` (ECMA-48, ECH).
    pub fn erase(&mut self, y: u16, from: u16, to: u16)
        requires row { y < self.old.rows }
        requires order { from ≤ to }
        requires columns { to ≤ self.old.cols }
        ensures cells { self.new ≡ erased y from to self.old }
    {
        let start = self.place(from, y);
        let end = self.place(to, y);
        self.held.erase(start, end);
    }

    /// Moves the cells of row `y` from column `x` on right by `n`, at most to the end of the row. Blanks
    /// come in at `x`, and what leaves the row is lost. An `n` of 0 changes nothing. The place is in the
    /// grid (ECMA-48, ICH).
    pub fn insert(&mut self, x: u16, y: u16, n: u16)
        requires column { x < self.old.cols }
        requires row { y < self.old.rows }
        ensures cells { self.new ≡ inserted x y n self.old }
    {
        let start = self.place(x, y);
        let end = self.place(self.columns, y);
        self.held.move_right(start, end, n as usize);
    }

    /// Takes `n` cells of row `y` away from column `x` on, at most to the end of the row. Those right of
    /// them move left, and blanks come in at the end of the row. An `n` of 0 changes nothing. The place
    /// is in the grid (ECMA-48, DCH).
    pub fn delete(&mut self, x: u16, y: u16, n: u16)
        requires column { x < self.old.cols }
        requires row { y < self.old.rows }
        ensures cells { self.new ≡ deleted x y n self.old }
    {
        let start = self.place(x, y);
        let end = self.place(self.columns, y);
        self.held.move_left(start, end, n as usize);
    }

    /// Moves the rows from `top` to `bottom`, both included, up by `n`, at most all of them. Blank
    /// rows come in at the bottom. An `n` of 0 changes nothing. The rows are in the grid, and `top` is at
    /// most `bottom` (ECMA-48, SU).
    pub fn scroll_up(&mut self, top: u16, bottom: u16, n: u16)
        requires order { top ≤ bottom }
        requires rows { bottom < self.old.rows }
        ensures cells { self.new ≡ scrolled_up top bottom n self.old }
    {
        let count = n as usize * self.columns as usize;
        if top == 0 && bottom + 1 == self.lines {
            self.halves = self.halves && n < self.lines;
            self.held.slide(count);
            return;
        }
        let start = self.place(0, top);
        let end = self.place(0, bottom + 1);
        self.held.move_left(start, end, count);
    }

    /// Moves the rows from `top` to `bottom`, both included, down by `n`, at most all of them. Blank
    /// rows come in at the top. An `n` of 0 changes nothing. The rows are in the grid, and `top` is at
    /// most `bottom` (ECMA-48, SD).
    pub fn scroll_down(&mut self, top: u16, bottom: u16, n: u16)
        requires order { top ≤ bottom }
        requires rows { bottom < self.old.rows }
        ensures cells { self.new ≡ scrolled_down top bottom n self.old }
    {
        let count = n as usize * self.columns as usize;
        let start = self.place(0, top);
        let end = self.place(0, bottom + 1);
        self.held.move_right(start, end, count);
    }

    /// Gives the grid another size: the cells of the places that both sizes have stay, and all others are blank. Refused
    /// for want of memory alone, and then nothing changed (this project's own rule).
    pub fn resize(&mut self, alloc: Global, cols: u16, rows: u16) -> Result<(), NoMemory>
        ensures cells { OnOk result (self.new ≡ resized cols rows self.old) }
        ensures unchanged { OnErr result (self.new ≡ self.old) }
    {
        let held = self.refitted(alloc, cols, rows)?;
        self.columns = cols;
        self.lines = rows;
        self.held = held;
        Ok(())
    }

    // The cells of another size.
    fn refitted(&self, alloc: Global, cols: u16, rows: u16) -> Result<Window, NoMemory>
        ensures { IfOk result (λ w. w ≡ (resized cols rows self.now).cells) }
    {
        let count = rows as usize * cols as usize;
        let mut held = Window::new(alloc, count)?;
        for at in 0..count {
            let x = (at % cols as usize) as u16;
            let y = (at / cols as usize) as u16;
            held.put(at, self.kept(x, y));
        }
        Ok(held)
    }

    // The cell at a place; blank where the grid doesn't have it.
    fn kept(&self, x: u16, y: u16) -> Cell
        ensures { result ≡ kept_at x y self.now }
    {
        if self.fits(x, y) {
            self.cell(x, y)
        } else {
            BLANK
        }
    }

    // The place of column `x` of row `y`, counted row by row.
    fn place(&self, x: u16, y: u16) -> usize
        ensures { result ≡ place x y self.now }
    {
        y as usize * self.columns as usize + x as usize
    }
}
