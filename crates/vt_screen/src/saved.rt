ghost use Rattle.std.specs.Prelude.{◌≡◌, ◌≤◌};
ghost use Rattle.gate_model.specs.terminal.Resizing.{saved_within};
ghost use Rattle.gate_model.specs.terminal.Terminal.{plain};

use crate::pen::Pen;
use std::marker::Model;

/// The cursor's place and the pen, as DECSC saves them.
#[derive(Clone, Copy)]
pub(crate) struct Saved {
    pub(crate) x: u16,
    pub(crate) y: u16,
    pub(crate) pen: Pen,
}

impl Model for Saved {
    ghost use Rattle.gate_model.specs.terminal.Terminal as terminal;

    ghost Value = { terminal.Saved };

    ghost view = { λ s. record { x = s.x; y = s.y; pen = s.pen } };

    ghost inverse = { λ v. record { x = v.x; y = v.y; pen = v.pen } };
}

impl Saved {
    // What DECRC restores where nothing was saved: the first place and the plain pen.
    pub(crate) fn nothing() -> Saved
        ensures { result ≡ record { x = 0; y = 0; pen = plain } }
    {
        Saved {
            x: 0,
            y: 0,
            pen: Pen::plain(),
        }
    }

    // The same on a screen of another size: a place beyond it comes to its last column and row.
    pub(crate) fn within(self, cols: u16, rows: u16) -> Saved
        requires columns { 1 ≤ cols }
        requires lines { 1 ≤ rows }
        ensures { result ≡ saved_within cols rows self }
    {
        Saved {
            x: self.x.min(cols - 1),
            y: self.y.min(rows - 1),
            pen: self.pen,
        }
    }
}
