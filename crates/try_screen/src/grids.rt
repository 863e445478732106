//! Edits of a grid of 4 columns and 3 rows, which has the letters A to L.

use anyhow::{Context, Result, bail};
use gate_model::{Cell, Half};
use screen_grid::Grid;
use std::alloc::Global;
use try_words::{first_word, numbers};

const BLANK: Cell = Cell {
    ch: ' ',
    ink: 7,
    paper: 0,
    under: false,
    half: Half::Whole,
};

// The most columns and rows of a grid whose letters are told.
const MOST: u16 = 8;

/// The grid after an edit of a copy of it, or what a new grid of a size is.
pub fn edited(alloc: Global, input: &str) -> Result<String> {
    let (name, rest) = first_word(input);
    let numbers = numbers(alloc, rest)?;
    if name == "new" {
        return new_grid(alloc, &numbers);
    }
    let grid = letters(alloc)?;
    edited_beside(alloc, &grid, name, &numbers)
}

// The text of a copy after an edit, which leaves the grid as it was.
fn edited_beside(alloc: Global, grid: &Grid, name: &str, numbers: &[u32]) -> Result<String> {
    let text = edited_copy(alloc, grid, name, numbers)?;
    if text_of(alloc, grid)?.as_str() != "ABCD|EFGH|IJKL|" {
        bail!("the grid changed with its copy");
    }
    Ok(text)
}

fn edited_copy(alloc: Global, grid: &Grid, name: &str, numbers: &[u32]) -> Result<String> {
    let mut copy = grid.copy(alloc).ok().context("no memory")?;
    text_after(alloc, &mut copy, name, numbers)
}

fn text_after(alloc: Global, grid: &mut Grid, name: &str, numbers: &[u32]) -> Result<String> {
    edit(alloc, grid, name, numbers)?;
    text_of(alloc, grid)
}

// A cell whose colours and underline follow from its letter.
fn cell_of(letter: u8) -> Cell {
    Cell {
        ch: char::from(letter),
        ink: letter % 16,
        paper: letter / 16,
        under: letter % 2 == 1,
        half: Half::Whole,
    }
}

fn letters(alloc: Global) -> Result<Grid> {
    let mut grid = Grid::new(alloc, 4, 3).ok().context("no memory")?;
    for place in 0..12u8 {
        let (x, y) = (place as u16 % 4, place as u16 / 4);
        if grid.fits(x, y) {
            grid.put(x, y, cell_of(b'A' + place));
        }
    }
    Ok(grid)
}

fn edit(alloc: Global, grid: &mut Grid, name: &str, numbers: &[u32]) -> Result<()> {
    if let [cols, rows] = numbers {
        let cols = u16::try_from(*cols)?;
        let rows = u16::try_from(*rows)?;
        return grid.resize(alloc, cols, rows).ok().context("no memory");
    }
    let [a, b, c] = numbers else {
        bail!("not three numbers");
    };
    let a = u16::try_from(*a)?;
    let b = u16::try_from(*b)?;
    let c = u16::try_from(*c)?;
    match name {
        "put" if grid.fits(a, b) => grid.put(a, b, cell_of(b'x')),
        "erase" if b <= c && 0 < c && grid.fits(c - 1, a) => grid.erase(a, b, c),
        "insert" if grid.fits(a, b) => grid.insert(a, b, c),
        "delete" if grid.fits(a, b) => grid.delete(a, b, c),
        "up" if a <= b && grid.fits(0, b) => grid.scroll_up(a, b, c),
        "down" if a <= b && grid.fits(0, b) => grid.scroll_down(a, b, c),
        _ => bail!("no edit"),
    }
    Ok(())
}

// The letters, row by row, with `.` for a blank; `!` stands for a cell that is neither blank nor as it was put.
fn text_of(alloc: Global, grid: &Grid) -> Result<String> {
    let mut text = String::new(alloc);
    for y in 0..MOST {
        if grid.fits(0, y) {
            push_row(&mut text, grid, y)?;
        }
    }
    Ok(text)
}

fn push_row(text: &mut String, grid: &Grid, y: u16) -> Result<()> {
    for x in 0..MOST {
        if grid.fits(x, y) {
            text.push(letter_of(grid.cell(x, y)))?;
        }
    }
    text.push('|')?;
    Ok(())
}

fn letter_of(cell: Cell) -> char {
    let letter = if cell.ch.is_ascii() { cell.ch as u8 } else { 0 };
    if cell == BLANK {
        '.'
    } else if cell == cell_of(letter) {
        cell.ch
    } else {
        '!'
    }
}

fn new_grid(alloc: Global, numbers: &[u32]) -> Result<String> {
    let [cols, rows] = numbers else {
        bail!("not two numbers");
    };
    let cols = u16::try_from(*cols)?;
    let rows = u16::try_from(*rows)?;
    let grid = Grid::new(alloc, cols, rows).ok().context("no memory")?;
    blanks_of(alloc, &grid, cols, rows)
}

// Which corners are blank, and whether the grid ends behind the last.
fn blanks_of(alloc: Global, grid: &Grid, cols: u16, rows: u16) -> Result<String> {
    let (right, lower) = (cols.saturating_sub(1), rows.saturating_sub(1));
    let ends = !grid.fits(cols, lower) && !grid.fits(right, rows);
    let mut text = String::new(alloc);
    for (x, y) in [(0, 0), (right, lower)] {
        if grid.fits(x, y) && grid.cell(x, y) == BLANK {
            write!(text, "blank at {x} {y}, ")?;
        }
    }
    text.push_str(if ends { "ends there" } else { "goes on" })?;
    Ok(text)
}
