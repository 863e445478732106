//! Control functions on a screen: each does what it says, and then what it can have left is mended.

ghost use Rattle.std.specs.Prelude.{◌≡◌, ◌≤◌, false};
ghost use Rattle.gate_model.specs.terminal.Controls.{HasFewParameters};
ghost use Rattle.gate_model.specs.terminal.Effects.{effect};
ghost use Rattle.gate_model.specs.terminal.Reports.{report};

use crate::reach::{Reach, reach_of};
use crate::{Reply, Screen};
use gate_model::{Control, Params};

impl Screen {
    ghost use Rattle.gate_model.specs.declared.control.Control.TheVariants.{Code, Esc, Csi};

    /// Does what the control function says, and answers its report, if it has one. The `count` of a
    /// `Csi` is at most 16 (ECMA-48; the effects are this project's own).
    pub fn apply(&mut self, control: &Control) -> Reply
        requires few { HasFewParameters control.now }
        ensures state { self.new ≡ effect control.now self.old }
        ensures reply { result ≡ report control.now self.old }
    {
        match control {
            Control::Print(ch) => self.print(*ch),
            Control::Code(code) => self.apply_character(*code),
            Control::Esc(last) => self.apply_final(*last),
            Control::Csi {
                private,
                params,
                last,
            } => return self.apply_control(*private, params, *last),
        }
        Reply::none()
    }

    /// Does what the control character says: the same as `apply` with a `Code`.
    pub fn apply_character(&mut self, code: u8)
        ensures { self.new ≡ effect (Code code) self.old }
    {
        self.state.fits();
        self.state.act_character(code);
        self.state.fits();
    }

    /// Does what the escape sequence with this final byte says: the same as `apply` with an `Esc`.
    pub fn apply_final(&mut self, last: u8)
        ensures { self.new ≡ effect (Esc last) self.old }
    {
        self.state.fits();
        self.state.act_final(last);
        self.state.fits();
    }

    /// Does what the control sequence with these parameters, of which there are at most 16, and this final
    /// byte says, and answers its report, if it has one: the same as `apply` with a `Csi`.
    pub fn apply_control(&mut self, private: bool, params: &Params, last: u8) -> Reply
        requires few { params.now.count ≤ 16 }
        ensures state { self.new ≡ effect (Csi private params.now last) self.old }
        ensures reply { result ≡ report (Csi private params.now last) self.old }
    {
        // Most sequences are SGR and CUP, which report nothing and leave nothing to mend.
        match (private, last) {
            (false, b'm') => self.apply_style(params),
            (false, b'H') => self.apply_place(params),
            _ => return self.apply_other(private, params, last),
        }
        Reply::none()
    }

    // SGR.
    fn apply_style(&mut self, params: &Params)
        requires { params.now.count ≤ 16 }
        ensures { self.new ≡ effect (Csi false params.now 0x6D) self.old }
    {
        self.state.fits();
        self.state.act_style(params);
        self.state.fits();
    }

    // CUP.
    fn apply_place(&mut self, params: &Params)
        ensures { self.new ≡ effect (Csi false params.now 0x48) self.old }
    {
        self.state.fits();
        self.state.act_place(params);
        self.state.fits();
    }

    // Any control sequence.
    #[inline(never)]
    fn apply_other(&mut self, private: bool, params: &Params, last: u8) -> Reply
        requires { params.now.count ≤ 16 }
        ensures state { self.new ≡ effect (Csi private params.now last) self.old }
        ensures reply { result ≡ report (Csi private params.now last) self.old }
    {
        let reply = self.state.control_report(private, params, last);
        self.control(private, params, last);
        reply
    }

    // The same without the report.
    fn control(&mut self, private: bool, params: &Params, last: u8)
        requires { params.now.count ≤ 16 }
        ensures { self.new ≡ effect (Csi private params.now last) self.old }
    {
        self.state.fits();
        self.state.act_control(private, params, last);
        self.state.fits();
        match reach_of(private, last) {
            Reach::Nothing => {}
            Reach::Line => self.state.mend_line(),
            Reach::All => self.state.mend(),
        }
    }
}
