ghost use Rattle.std.specs.Prelude.{◌≡◌, ◌-◌, ◌^◌, min, IfOk, OnErr, OnOk};
ghost use Rattle.gate_model.specs.session.Steps.{IsScreenSize};
ghost use Rattle.std.specs.Option.{option_map};
ghost use Rattle.gate_model.specs.terminal.Resizing.{refitted, saved_within};
ghost use Rattle.gate_model.specs.terminal.Terminal.{opening_screen};
ghost use Rattle.vt_screen.specs.Soundness.{IsFit};

use crate::modes::Modes;
use crate::pen::Pen;
use crate::saved::Saved;
use crate::scrolled::Scrolled;
use gate_model::{Faces, NoMemory};
use screen_grid::Grid;
use std::alloc::Global;
use std::marker::Model;
use tab_stops::TabStops;

/// The state of a terminal, which contracts see as a `Terminal`: its cells, its cursor, its margins, its tab stops, its
/// pen and its modes. Its calls do what the control functions say, but mend no halves of characters; `Screen` does.
#[derive(Drop)]
pub(crate) struct State {
    pub(crate) columns: u16,
    pub(crate) rows: u16,
    pub(crate) grid: Grid,
    pub(crate) x: u16,
    pub(crate) y: u16,
    pub(crate) pending: bool,
    pub(crate) top: u16,
    pub(crate) bottom: u16,
    pub(crate) stops: TabStops,
    pub(crate) pen: Pen,
    pub(crate) saved: Option<Saved>,
    pub(crate) last: Option<char>,
    pub(crate) modes: Modes,
    pub(crate) faces: Faces,
    pub(crate) shift: Scrolled,
}

impl Model for State {
    ghost use Rattle.gate_model.specs.terminal.Terminal.{Terminal};

    ghost Value = { Terminal };

    ghost use Rattle.vt_screen.specs.Soundness.{state_of, IsSound};

    ghost view = { state_of };

    ghost invariant = { IsSound };
}

impl State {
    // The state of the start, with these faces and 1 to 512 columns and 1 to 256 rows. Refused for want of memory alone.
    pub(crate) fn new(alloc: Global, faces: Faces, cols: u16, rows: u16) -> Result<State, NoMemory>
        requires { IsScreenSize cols rows }
        ensures { IfOk result (λ s. s ≡ opening_screen faces cols rows) }
    {
        let grid = Grid::new(alloc, cols, rows)?;
        let stops = TabStops::new(alloc, cols)?;
        Ok(State {
            columns: cols,
            rows,
            grid,
            x: 0,
            y: 0,
            pending: false,
            top: 0,
            bottom: rows - 1,
            stops,
            pen: Pen::plain(),
            saved: None,
            last: None,
            modes: Modes::first(),
            faces,
            shift: Scrolled::none(),
        })
    }

    // The same state once more. Refused for want of memory alone.
    pub(crate) fn copy(&self, alloc: Global) -> Result<State, NoMemory>
        ensures { IfOk result (λ s. s ≡ self.now) }
    {
        let grid = self.grid.copy(alloc)?;
        let stops = self.stops.copy(alloc)?;
        Ok(State {
            columns: self.columns,
            rows: self.rows,
            grid,
            x: self.x,
            y: self.y,
            pending: self.pending,
            top: self.top,
            bottom: self.bottom,
            stops,
            pen: self.pen,
            saved: self.saved,
            last: self.last,
            modes: self.modes,
            faces: self.faces,
            shift: self.shift.copy(),
        })
    }

    // Another size, of 1 to 512 columns and 1 to 256 rows. Refused for want of memory alone, and then nothing changed.
    pub(crate) fn refit(&mut self, alloc: Global, cols: u16, rows: u16) -> Result<(), NoMemory>
        requires { IsScreenSize cols rows }
        ensures state { OnOk result (self.new ≡ refitted cols rows self.old) }
        ensures unchanged { OnErr result (self.new ≡ self.old) }
    {
        let saved = self.saved_within(cols, rows);
        let stops = self.stops.resized(alloc, cols)?;
        self.grid.resize(alloc, cols, rows)?;
        self.columns = cols;
        self.rows = rows;
        self.x = self.x.min(cols - 1);
        self.y = self.y.min(rows - 1);
        self.pending = false;
        self.top = 0;
        self.bottom = rows - 1;
        self.stops = stops;
        self.saved = saved;
        Ok(())
    }

    // What was saved, on a screen of another size.
    fn saved_within(&self, cols: u16, rows: u16) -> Option<Saved>
        requires { IsScreenSize cols rows }
        ensures { result ≡ option_map (saved_within cols rows) self.now.saved }
    {
        match self.saved {
            Some(saved) => Some(saved.within(cols, rows)),
            None => None,
        }
    }

    // What holds of each state, for those who hold one. Does nothing.
    pub(crate) fn fits(&self)
        ensures { IsFit self.now }
    {
        let _columns = self.columns;
    }

    // The lesser of 2^32 - 1 and the number of lines that the whole screen has scrolled up since `clear_shift`.
    pub(crate) fn shift(&self) -> u32
        ensures { result ≡ min self.now.shift (2 ^ 32 - 1) }
    {
        self.shift.counted()
    }

    // Counts the lines from none again.
    pub(crate) fn clear_shift(&mut self)
        ensures { self.new ≡ record self.old { shift = 0 } }
    {
        self.shift = Scrolled::none();
    }
}
