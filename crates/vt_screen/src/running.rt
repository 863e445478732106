//! Characters and runs of them on a screen.

ghost use Rattle.std.specs.Prelude.{◌≡◌, ◌≤◌, ◌+◌, All, false, length, map, take};
ghost use Rattle.gate_model.specs.terminal.Effects.{effect};
ghost use Rattle.gate_model.specs.terminal.Printing.{IsPrintable};
ghost use Rattle.gate_model.specs.terminal.Screens.{after_controls};

use crate::Screen;

impl Screen {
    ghost use Rattle.gate_model.specs.declared.control.Control.TheVariants.{Print};

    /// Prints the bytes one after another, each of printable ASCII: the same as `apply` with a `Print` for each (this
    /// project's own rule).
    pub fn print_run(&mut self, text: &[u8])
        requires printable { All IsPrintable text.now }
        ensures { self.new ≡ after_controls self.old (map Print text.now) }
    {
        let mut at = 0;
        while at < text.len() {
            at += self.print_some(&text[at..]);
        }
    }

    // Prints some first bytes, and answers how many: one where a wrap is pending or cells move for it, and
    // else what the cursor's row has room for.
    fn print_some(&mut self, text: &[u8]) -> usize
        requires some { 1 ≤ length text.now }
        requires printable { All IsPrintable text.now }
        ensures progress { 1 ≤ result }
        ensures within { result ≤ length text.now }
        ensures state { self.new ≡ after_controls self.old (map Print (take result text.now)) }
    {
        if self.state.pending || self.state.modes.insert {
            self.print(char::from(text[0]));
            return 1;
        }
        let room = (self.state.columns - self.state.x) as usize;
        let count = room.min(text.len());
        self.place_run(&text[..count]);
        count
    }

    // The characters take the cells from the cursor's on. There is room for them in its row.
    fn place_run(&mut self, text: &[u8])
        requires some { 1 ≤ length text.now }
        requires printable { All IsPrintable text.now }
        requires room { self.old.x + length text.now ≤ self.old.grid.cols }
        requires pending { self.old.pending ≡ false }
        requires insert { self.old.modes.insert ≡ false }
        ensures { self.new ≡ after_controls self.old (map Print text.now) }
    {
        self.state.fits();
        let from = self.state.column();
        let to = from + text.len() as u16;
        self.state.place_run(text);
        self.state.fits();
        self.state.mend_beside(from, to);
    }

    /// Prints a character: the same as `apply` with a `Print`. One that takes no column, as U+0301 does, has no effect
    /// (Unicode Standard Annex 11, as `unicode_width` has it; the rest is this project's own).
    pub fn print(&mut self, ch: char)
        ensures { self.new ≡ effect (Print ch) self.old }
    {
        self.state.fits();
        let Some((from, to)) = self.state.print(ch) else {
            return;
        };
        self.state.fits();
        if self.state.inserts() {
            self.state.mend_line();
        } else {
            self.state.mend_beside(from, to);
        }
    }
}
