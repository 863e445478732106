ghost use Rattle.std.specs.Prelude.{◌≡◌, ◌-◌, ◌^◌, min, IfOk, OnErr, OnOk};
ghost use Rattle.gate_model.specs.session.Steps.{IsScreenSize};
ghost use Rattle.gate_model.specs.terminal.Resizing.{resized};
ghost use Rattle.gate_model.specs.terminal.Screens.{shown};
ghost use Rattle.gate_model.specs.terminal.Terminal.{opening_screen};

use crate::state::State;
use gate_model::{Faces, NoMemory, Shown};
use std::alloc::Global;
use std::marker::Model;

/// The screen of a terminal, which contracts see as the state `Terminal`: its cells, its cursor, its margins, its tab
/// stops, its pen, its modes and its faces. No half of a character that takes two places stands without its other half.
#[derive(Drop)]
pub struct Screen {
    pub(crate) state: State,
}

impl Model for Screen {
    ghost use Rattle.gate_model.specs.terminal.MendLaws.{AreMended};
    ghost use Rattle.gate_model.specs.terminal.Terminal.{Terminal};

    ghost Value = { Terminal };

    ghost view = { λ s. s.state };

    ghost invariant = { λ s. AreMended s.state.grid };
}

impl Screen {
    ghost use Rattle.gate_model.specs.declared.faces.Faces.TheVariants.{Ascii};

    /// The state of the start, with the faces of ASCII alone, for 1 to 512 columns and 1 to 256 rows (this
    /// project's own rule). Refused for want of memory alone.
    pub fn new(alloc: Global, cols: u16, rows: u16) -> Result<Screen, NoMemory>
        requires { IsScreenSize cols rows }
        ensures { IfOk result (λ s. s ≡ opening_screen Ascii cols rows) }
    {
        Screen::with_faces(alloc, Faces::Ascii, cols, rows)
    }

    /// The state of the start, with these faces, for 1 to 512 columns and 1 to 256 rows (this project's own
    /// rule). Refused for want of memory alone.
    pub fn with_faces(alloc: Global, faces: Faces, cols: u16, rows: u16) -> Result<Screen, NoMemory>
        requires { IsScreenSize cols rows }
        ensures { IfOk result (λ s. s ≡ opening_screen faces cols rows) }
    {
        let state = State::new(alloc, faces, cols, rows)?;
        Ok(Screen { state })
    }

    /// A screen in the same state. Refused for want of memory alone.
    pub fn copy(&self, alloc: Global) -> Result<Screen, NoMemory>
        ensures { IfOk result (λ s. s ≡ self.now) }
    {
        let state = self.state.copy(alloc)?;
        Ok(Screen { state })
    }

    /// Gives the screen another size, of 1 to 512 columns and 1 to 256 rows: the cells that both sizes have stay, and the
    /// cursor comes to the last column and row where it was beyond. A half of a character whose other half was cut off
    /// becomes a space. Refused for want of memory alone, and then nothing changed (this project's own rule).
    pub fn resize(&mut self, alloc: Global, cols: u16, rows: u16) -> Result<(), NoMemory>
        requires { IsScreenSize cols rows }
        ensures state { OnOk result (self.new ≡ resized cols rows self.old) }
        ensures unchanged { OnErr result (self.new ≡ self.old) }
    {
        self.state.refit(alloc, cols, rows)?;
        self.state.fits();
        self.state.mend();
        Ok(())
    }

    /// What the screen shows: the key of each place, with ink and paper exchanged at a visible cursor.
    /// Refused for want of memory alone.
    pub fn shown(&self, alloc: Global) -> Result<Shown, NoMemory>
        ensures { IfOk result (λ s. s ≡ shown self.now) }
    {
        self.state.shown(alloc)
    }

    /// The lesser of 2^32 - 1 and the number of lines that the whole screen has scrolled up since
    /// `clear_shift`.
    pub fn shift(&self) -> u32
        ensures { result ≡ min self.now.shift (2 ^ 32 - 1) }
    {
        self.state.shift()
    }

    /// Counts the lines from none again.
    pub fn clear_shift(&mut self)
        ensures { self.new ≡ record self.old { shift = 0 } }
    {
        self.state.clear_shift();
    }

    /// Whether the arrow keys send what they do in cursor mode (DECCKM).
    pub fn cursor_mode(&self) -> bool
        ensures { result ≡ self.now.modes.cursor_keys }
    {
        self.state.modes.cursor_keys
    }
}
