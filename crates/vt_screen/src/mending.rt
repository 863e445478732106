//! Halves of characters that are without their other half.

ghost use Rattle.std.specs.Prelude.{◌≡◌, ◌≤◌};
ghost use Rattle.gate_model.specs.terminal.Cells.{mended};
ghost use Rattle.gate_model.specs.terminal.MendLaws.{AreMendedBeside, AreMendedBut};

use crate::state::State;

impl State {
    // Each of them becomes a space.
    pub(crate) fn mend(&mut self)
        ensures { self.new ≡ record self.old { grid = mended self.old.grid } }
    {
        self.grid.mend();
    }

    // The same, where they can stand in the cursor's row alone.
    pub(crate) fn mend_line(&mut self)
        requires { AreMendedBut self.old.y self.old.grid }
        ensures { self.new ≡ record self.old { grid = mended self.old.grid } }
    {
        self.grid.mend_row(self.y);
    }

    // The same, where they can stand only in the column before `from` and in the column `to` of the cursor's row.
    pub(crate) fn mend_beside(&mut self, from: u16, to: u16)
        requires column { from ≤ self.old.grid.cols }
        requires others { AreMendedBeside self.old.y from to self.old.grid }
        ensures { self.new ≡ record self.old { grid = mended self.old.grid } }
    {
        self.grid.mend_beside(self.y, from, to);
    }
}
