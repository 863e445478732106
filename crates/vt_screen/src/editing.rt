//! Erasing, inserting and deleting of cells. Whole rows are erased by scrolling them by all of them.

ghost use Rattle.std.specs.Prelude.{◌≡◌, ◌+◌};
ghost use Rattle.gate_model.specs.terminal.Editing.{blanked, characters_deleted, characters_erased, characters_inserted, cursor_place, display_erased, line_erased, place_count};

use crate::state::State;

impl State {
    // ED: from the cursor's cell to the end, from the start through it, or all.
    pub(crate) fn erase_display(&mut self, which: u16)
        ensures { self.new ≡ display_erased which self.old }
    {
        match which {
            0 => self.erase_after(),
            1 => self.erase_before(),
            2 => self.erase_all(),
            _ => {}
        }
    }

    // The cursor's cell and all that follow.
    fn erase_after(&mut self)
        ensures { self.new ≡ record self.old { grid = blanked (cursor_place self.old) (place_count self.old) self.old.grid } }
    {
        let below = self.y + 1;
        self.grid.erase(self.y, self.x, self.columns);
        if below < self.rows {
            self.grid.scroll_up(below, self.rows - 1, self.rows);
        }
    }

    // All cells before the cursor's, and that.
    fn erase_before(&mut self)
        ensures { self.new ≡ record self.old { grid = blanked 0 (cursor_place self.old + 1) self.old.grid } }
    {
        if self.y > 0 {
            self.grid.scroll_up(0, self.y - 1, self.rows);
        }
        self.grid.erase(self.y, 0, self.x + 1);
    }

    // Every cell.
    fn erase_all(&mut self)
        ensures { self.new ≡ record self.old { grid = blanked 0 (place_count self.old) self.old.grid } }
    {
        self.grid.scroll_up(0, self.rows - 1, self.rows);
    }

    // EL: the same within the line.
    pub(crate) fn erase_line(&mut self, which: u16)
        ensures { self.new ≡ line_erased which self.old }
    {
        match which {
            0 => self.grid.erase(self.y, self.x, self.columns),
            1 => self.grid.erase(self.y, 0, self.x + 1),
            2 => self.grid.erase(self.y, 0, self.columns),
            _ => {}
        }
    }

    // ECH: the cells from the cursor's on, within the line.
    pub(crate) fn erase_characters(&mut self, n: u16)
        ensures { self.new ≡ characters_erased n self.old }
    {
        let end = self.x + n.min(self.columns - self.x);
        self.grid.erase(self.y, self.x, end);
    }

    // ICH: the cells of the line from the cursor's on move right. Not inlined, as `feed_line`.
    #[inline(never)]
    pub(crate) fn insert_characters(&mut self, n: u16)
        ensures { self.new ≡ characters_inserted n self.old }
    {
        self.grid.insert(self.x, self.y, n);
    }

    // DCH: cells go, and those of the line right of them move left.
    pub(crate) fn delete_characters(&mut self, n: u16)
        ensures { self.new ≡ characters_deleted n self.old }
    {
        self.grid.delete(self.x, self.y, n);
    }
}
