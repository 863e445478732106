//! What each control function does: a row for each, after ECMA-48. A function without a row has no
//! effect.

ghost use Rattle.std.specs.Prelude.{◌≡◌, ◌≤◌, false};
ghost use Rattle.gate_model.specs.terminal.Effects.{acted, code_effect, cursor_effect, editing_effect, escape_effect, private_effect, reset, sequence_effect};

use crate::arguments::{first_amount, first_choice, listed};
use crate::modes::Modes;
use crate::pen::Pen;
use crate::state::State;
use gate_model::Params;

impl State {
    ghost use Rattle.gate_model.specs.declared.control.Control.TheVariants.{Code, Esc, Csi};

    // What the control character says.
    pub(crate) fn act_character(&mut self, code: u8)
        ensures { self.new ≡ acted (Code code) self.old }
    {
        self.apply_code(code);
        if matches!(code, 0x08..=0x0d) {
            self.pending = false;
        }
    }

    // What the escape sequence with this final byte says.
    pub(crate) fn act_final(&mut self, last: u8)
        ensures { self.new ≡ acted (Esc last) self.old }
    {
        self.apply_escape(last);
        if matches!(last, b'7' | b'8' | b'E' | b'M' | b'c') {
            self.pending = false;
        }
    }

    // What the control sequence with these parameters, of which there are at most 16, and this final byte says.
    pub(crate) fn act_control(&mut self, private: bool, params: &Params, last: u8)
        requires { params.now.count ≤ 16 }
        ensures { self.new ≡ acted (Csi private params.now last) self.old }
    {
        let clears = self.control_clears(private, params, last);
        if private {
            self.apply_private(params, last);
        } else {
            self.apply_sequence(params, last);
        }
        if clears {
            self.pending = false;
        }
    }

    // What SGR says, with parameters of which there are at most 16.
    pub(crate) fn act_style(&mut self, params: &Params)
        requires { params.now.count ≤ 16 }
        ensures { self.new ≡ acted (Csi false params.now 0x6D) self.old }
    {
        self.pen.style(listed(params));
    }

    // What CUP says.
    pub(crate) fn act_place(&mut self, params: &Params)
        ensures { self.new ≡ acted (Csi false params.now 0x48) self.old }
    {
        self.move_to_place(params);
        self.pending = false;
    }

    // BS, HT, LF, VT, FF and CR.
    fn apply_code(&mut self, code: u8)
        ensures { self.new ≡ code_effect code self.old }
    {
        match code {
            0x08 => self.move_back(1),
            0x09 => self.tab_on(1),
            0x0a..=0x0c => self.feed_line(),
            0x0d => self.return_cursor(),
            _ => {}
        }
    }

    // DECSC, DECRC, NEL, HTS, RI and RIS.
    fn apply_escape(&mut self, last: u8)
        ensures { self.new ≡ escape_effect last self.old }
    {
        match last {
            b'7' => self.save_cursor(),
            b'8' => self.restore_cursor(),
            b'E' => {
                self.return_cursor();
                self.feed_line();
            }
            b'H' => self.stops.set(self.x),
            b'M' => self.feed_line_back(),
            b'c' => self.reset(),
            _ => {}
        }
    }

    // RIS: the state of the start; the lines that were scrolled stay counted.
    fn reset(&mut self)
        ensures { self.new ≡ reset self.old }
    {
        self.grid.scroll_up(0, self.rows - 1, self.rows);
        self.x = 0;
        self.y = 0;
        self.pending = false;
        self.top = 0;
        self.bottom = self.rows - 1;
        self.stops.reset();
        self.pen = Pen::plain();
        self.saved = None;
        self.last = None;
        self.modes = Modes::first();
    }

    // The private modes.
    fn apply_private(&mut self, params: &Params, last: u8)
        requires { params.now.count ≤ 16 }
        ensures { self.new ≡ private_effect params.now last self.old }
    {
        match last {
            b'h' => self.modes.set(true, true, listed(params)),
            b'l' => self.modes.set(true, false, listed(params)),
            _ => {}
        }
    }

    // REP, TBC, SM, RM, SGR and DECSTBM.
    fn apply_sequence(&mut self, params: &Params, last: u8)
        requires { params.now.count ≤ 16 }
        ensures { self.new ≡ sequence_effect params.now last self.old }
    {
        match last {
            b'b' => self.repeat(first_amount(params)),
            b'g' => self.stops.clear(first_choice(params), self.x),
            b'h' => self.modes.set(false, true, listed(params)),
            b'l' => self.modes.set(false, false, listed(params)),
            b'm' => self.pen.style(listed(params)),
            b'r' => self.set_margins(params),
            _ => self.apply_editing(params, last),
        }
    }

    // ICH, ED, EL, IL, DL, DCH, SU, SD and ECH.
    fn apply_editing(&mut self, params: &Params, last: u8)
        ensures { self.new ≡ editing_effect params.now last self.old }
    {
        let n = first_amount(params);
        match last {
            b'@' => self.insert_characters(n),
            b'J' => self.erase_display(first_choice(params)),
            b'K' => self.erase_line(first_choice(params)),
            b'L' => self.insert_lines(n),
            b'M' => self.delete_lines(n),
            b'P' => self.delete_characters(n),
            b'S' => self.scroll_up(n),
            b'T' => self.scroll_down(n),
            b'X' => self.erase_characters(n),
            _ => self.apply_cursor(params, last),
        }
    }

    // CUU, CUD, CUF, CUB, CNL, CPL, CHA, CUP, CHT, CBT, VPA and HVP.
    fn apply_cursor(&mut self, params: &Params, last: u8)
        ensures { self.new ≡ cursor_effect params.now last self.old }
    {
        let n = first_amount(params);
        match last {
            b'A' => self.move_up(n),
            b'B' => self.move_down(n),
            b'C' => self.move_on(n),
            b'D' => self.move_back(n),
            b'E' => {
                self.move_down(n);
                self.return_cursor();
            }
            b'F' => {
                self.move_up(n);
                self.return_cursor();
            }
            b'G' => self.move_to_column(n),
            b'H' | b'f' => self.move_to_place(params),
            b'I' => self.tab_on(n),
            b'Z' => self.tab_back(n),
            b'd' => self.move_to_row(n),
            _ => {}
        }
    }
}
