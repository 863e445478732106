//! Scrolling within the margins, and the margins.

ghost use Rattle.std.specs.Prelude.{◌≡◌};
ghost use Rattle.gate_model.specs.terminal.Scrolling.{are_margins, is_whole, is_within, line_feed, lines_deleted, lines_inserted, named_bottom, reverse_line_feed, scrolled_down, scrolled_up, with_margins};

use crate::arguments::{DEFAULT, first_amount, parameter};
use crate::state::State;
use gate_model::Params;

impl State {
    // The margins are the first and the last row.
    fn is_whole(&self) -> bool
        ensures { result ≡ is_whole self.now }
    {
        self.top == 0 && self.bottom + 1 == self.rows
    }

    // SU. Where the whole screen moves, the lines are counted.
    pub(crate) fn scroll_up(&mut self, n: u16)
        ensures { self.new ≡ scrolled_up n self.old }
    {
        if self.is_whole() {
            self.shift = self.shift.more(n.min(self.rows));
        }
        self.grid.scroll_up(self.top, self.bottom, n);
    }

    // SD.
    pub(crate) fn scroll_down(&mut self, n: u16)
        ensures { self.new ≡ scrolled_down n self.old }
    {
        self.grid.scroll_down(self.top, self.bottom, n);
    }

    // LF, VT and FF: one row down; at the bottom margin the lines move up; below it the last row holds.
    // Not inlined: where it is, each character that is printed saves the registers that scrolling needs.
    #[inline(never)]
    pub(crate) fn feed_line(&mut self)
        ensures { self.new ≡ line_feed self.old }
    {
        if self.y == self.bottom {
            self.scroll_up(1);
        } else if self.y + 1 < self.rows {
            self.y += 1;
        }
    }

    // RI: one row up; at the top margin the lines move down.
    pub(crate) fn feed_line_back(&mut self)
        ensures { self.new ≡ reverse_line_feed self.old }
    {
        if self.y == self.top {
            self.scroll_down(1);
        } else {
            self.y = self.y.saturating_sub(1);
        }
    }

    // The cursor is within the margins.
    pub(crate) fn is_within(&self) -> bool
        ensures { result ≡ is_within self.now }
    {
        self.top <= self.y && self.y <= self.bottom
    }

    // IL: the lines from the cursor's to the bottom margin move down.
    pub(crate) fn insert_lines(&mut self, n: u16)
        ensures { self.new ≡ lines_inserted n self.old }
    {
        if self.is_within() {
            self.grid.scroll_down(self.y, self.bottom, n);
            self.x = 0;
        }
    }

    // DL: they move up. The lines aren't counted.
    pub(crate) fn delete_lines(&mut self, n: u16)
        ensures { self.new ≡ lines_deleted n self.old }
    {
        if self.is_within() {
            self.grid.scroll_up(self.y, self.bottom, n);
            self.x = 0;
        }
    }

    // DECSTBM's bottom margin; a default, 0 and one that is too large name the last row.
    fn named_bottom(&self, params: &Params) -> u16
        ensures { result ≡ named_bottom params.now self.now }
    {
        let n = parameter(1, params);
        if n == DEFAULT || n == 0 || self.rows < n {
            self.rows - 1
        } else {
            n - 1
        }
    }

    // There are at least two lines between DECSTBM's margins.
    pub(crate) fn are_margins(&self, params: &Params) -> bool
        ensures { result ≡ are_margins params.now self.now }
    {
        first_amount(params) - 1 < self.named_bottom(params)
    }

    // DECSTBM: the margins are set, and the cursor goes to the first place.
    pub(crate) fn set_margins(&mut self, params: &Params)
        ensures { self.new ≡ with_margins params.now self.old }
    {
        if self.are_margins(params) {
            self.bottom = self.named_bottom(params);
            self.top = first_amount(params) - 1;
            self.x = 0;
            self.y = 0;
        }
    }
}
