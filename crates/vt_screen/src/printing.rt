//! Characters that are printed, and what they leave to mend.

ghost use Rattle.std.specs.Prelude.{◌≡◌, ◌<◌, ◌≤◌, ◌+◌, false, true, length};
ghost use Rattle.gate_model.specs.terminal.CellLaws.{IsFull};
ghost use Rattle.gate_model.specs.terminal.Printing.{given_room, opened_for, placed, printed, printed_as, repeated, width_of, wrapped};
ghost use Rattle.vt_screen.specs.Printed.{placed_run, printed_at, span};

use crate::state::State;
use gate_model::{Cell, Half};
use unicode_width::UnicodeWidthChar;

impl State {
    // The characters of a run take the cells from the cursor's on. The cursor moves behind them, or a wrap is pending.
    pub(crate) fn place_run(&mut self, text: &[u8])
        requires some { 1 ≤ length text.now }
        requires room { self.old.x + length text.now ≤ self.old.grid.cols }
        ensures { self.new ≡ placed_run text.now self.old }
    {
        self.grid.put_run(self.x, self.y, text, self.pen.draw(' '));
        self.last = Some(char::from(text[text.len() - 1]));
        let end = self.x + text.len() as u16;
        let at_end = end == self.columns;
        self.pending = at_end && self.modes.wrap;
        self.x = if at_end { end - 1 } else { end };
    }

    // The cursor's column.
    pub(crate) fn column(&self) -> u16
        ensures { result ≡ self.now.x }
    {
        self.x
    }

    // Prints a character, and answers the columns of its cells: the first, and the one behind the last. One that takes no
    // column has no effect.
    pub(crate) fn print(&mut self, ch: char) -> Option<(u16, u16)>
        ensures state { self.new ≡ printed ch self.old }
        ensures columns { result ≡ printed_at ch self.old }
    {
        match width(ch) {
            0 => None,
            1 => Some(self.print_narrow(ch)),
            _ if self.columns == 1 => Some(self.print_narrow(char::REPLACEMENT_CHARACTER)),
            _ => Some(self.print_wide(ch)),
        }
    }

    // Prints a character of one column.
    fn print_narrow(&mut self, ch: char) -> (u16, u16)
        ensures state { self.new ≡ printed_as false ch self.old }
        ensures columns { result ≡ span false self.old }
    {
        self.wrap();
        self.open(1);
        let x = self.x;
        self.place(ch);
        (x, x + 1)
    }

    // Prints a character of two columns.
    fn print_wide(&mut self, ch: char) -> (u16, u16)
        requires { 2 ≤ self.old.grid.cols }
        ensures state { self.new ≡ printed_as true ch self.old }
        ensures columns { result ≡ span true self.old }
    {
        self.wrap();
        self.give_room();
        self.open(2);
        let x = self.x;
        self.place_wide(ch);
        (x, x + 2)
    }

    // A wrap that is pending is made.
    fn wrap(&mut self)
        ensures state { self.new ≡ wrapped self.old }
        ensures columns { self.new.grid.cols ≡ self.old.grid.cols }
    {
        if self.pending {
            self.return_cursor();
            self.feed_line();
        }
    }

    // Where a wide character has no room in its line, the cursor goes to the next one, or a column back.
    fn give_room(&mut self)
        requires { 2 ≤ self.old.grid.cols }
        ensures state { self.new ≡ given_room true self.old }
        ensures room { self.new.x + 1 < self.new.grid.cols }
    {
        if self.x + 1 < self.columns {
            return;
        }
        if self.modes.wrap {
            self.return_cursor();
            self.feed_line();
        } else {
            self.x -= 1;
        }
    }

    // In insert mode so many cells come free at the cursor.
    fn open(&mut self, n: u16)
        ensures state { self.new ≡ opened_for n self.old }
        ensures column { self.new.x ≡ self.old.x }
        ensures columns { self.new.grid.cols ≡ self.old.grid.cols }
    {
        if self.inserts() {
            self.insert_characters(n);
        }
    }

    // Whether cells come free for each character.
    pub(crate) fn inserts(&self) -> bool
        ensures { result ≡ self.now.modes.insert }
    {
        self.modes.insert
    }

    // The character takes the cursor's cell, and the cursor moves on or a wrap is pending.
    fn place(&mut self, ch: char)
        ensures { self.new ≡ placed false ch self.old }
    {
        self.grid.put(self.x, self.y, self.pen.draw(ch));
        self.last = Some(ch);
        let at_end = self.x + 1 == self.columns;
        self.pending = at_end && self.modes.wrap;
        if !at_end {
            self.x += 1;
        }
    }

    // The halves of the character take the cursor's cell and the next, and the cursor moves on or a wrap is pending.
    fn place_wide(&mut self, ch: char)
        requires { self.old.x + 1 < self.old.grid.cols }
        ensures { self.new ≡ placed true ch self.old }
    {
        let cell = self.pen.draw(ch);
        let left = Cell {
            half: Half::Left,
            ..cell
        };
        let right = Cell {
            half: Half::Right,
            ..cell
        };
        self.grid.put(self.x, self.y, left);
        self.x += 1;
        self.grid.put(self.x, self.y, right);
        self.last = Some(ch);
        let at_end = self.x + 1 == self.columns;
        self.pending = at_end && self.modes.wrap;
        if !at_end {
            self.x += 1;
        }
    }

    // REP: the last printed character again, at most as often as there are columns.
    pub(crate) fn repeat(&mut self, n: u16)
        ensures { self.new ≡ repeated n self.old }
    {
        let Some(ch) = self.last else { return };
        let count = n.min(self.columns);
        for _ in 0..count {
            self.print(ch);
        }
    }
}

// The columns that a character takes; none counts as 0.
#[tactic(auto, unfolding(gate_model::specs::terminal::Printing::width_of))]
fn width(ch: char) -> usize
    ensures { result ≡ width_of ch }
{
    ch.width().unwrap_or(0)
}
