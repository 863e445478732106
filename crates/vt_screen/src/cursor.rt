//! The movements of the cursor.

ghost use Rattle.std.specs.Prelude.{◌≡◌};
ghost use Rattle.gate_model.specs.terminal.Cursor.{moved_back, moved_down, moved_on, moved_up, restored_cursor, returned, saved_cursor, tabbed_back, tabbed_on, to_column, to_place, to_row};

use crate::arguments::{amount, parameter};
use crate::saved::Saved;
use crate::state::State;
use gate_model::Params;

impl State {
    // CR, and what CNL and CPL do last.
    pub(crate) fn return_cursor(&mut self)
        ensures { self.new ≡ returned self.old }
    {
        self.x = 0;
    }

    // BS and CUB.
    pub(crate) fn move_back(&mut self, n: u16)
        ensures { self.new ≡ moved_back n self.old }
    {
        self.x = self.x.saturating_sub(n);
    }

    // CUF.
    pub(crate) fn move_on(&mut self, n: u16)
        ensures { self.new ≡ moved_on n self.old }
    {
        let last = self.columns - 1;
        self.x += n.min(last - self.x);
    }

    // CUU, to the top margin from within or below it.
    pub(crate) fn move_up(&mut self, n: u16)
        ensures { self.new ≡ moved_up n self.old }
    {
        let limit = if self.top <= self.y { self.top } else { 0 };
        self.y = self.y.saturating_sub(n).max(limit);
    }

    // CUD, to the bottom margin from within or above it.
    pub(crate) fn move_down(&mut self, n: u16)
        ensures { self.new ≡ moved_down n self.old }
    {
        let limit = if self.y <= self.bottom {
            self.bottom
        } else {
            self.rows - 1
        };
        self.y += n.min(limit - self.y);
    }

    // CHA: to a column, counted from 1.
    pub(crate) fn move_to_column(&mut self, n: u16)
        ensures { self.new ≡ to_column n self.old }
    {
        self.x = n.saturating_sub(1).min(self.columns - 1);
    }

    // VPA: to a row, counted from 1.
    pub(crate) fn move_to_row(&mut self, n: u16)
        ensures { self.new ≡ to_row n self.old }
    {
        self.y = n.saturating_sub(1).min(self.rows - 1);
    }

    // CUP and HVP: to a row and a column.
    pub(crate) fn move_to_place(&mut self, params: &Params)
        ensures { self.new ≡ to_place params.now self.old }
    {
        self.move_to_row(amount(parameter(0, params)));
        self.move_to_column(amount(parameter(1, params)));
    }

    // HT and CHT.
    pub(crate) fn tab_on(&mut self, n: u16)
        ensures { self.new ≡ tabbed_on n self.old }
    {
        self.x = self.stops.above(n, self.x);
    }

    // CBT.
    pub(crate) fn tab_back(&mut self, n: u16)
        ensures { self.new ≡ tabbed_back n self.old }
    {
        self.x = self.stops.below(n, self.x);
    }

    // DECSC.
    pub(crate) fn save_cursor(&mut self)
        ensures { self.new ≡ saved_cursor self.old }
    {
        self.saved = Some(Saved {
            x: self.x,
            y: self.y,
            pen: self.pen,
        });
    }

    // DECRC.
    pub(crate) fn restore_cursor(&mut self)
        ensures { self.new ≡ restored_cursor self.old }
    {
        let saved = self.saved.unwrap_or(Saved::nothing());
        self.x = saved.x;
        self.y = saved.y;
        self.pen = saved.pen;
    }
}
