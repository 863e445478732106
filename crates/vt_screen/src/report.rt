//! What a screen reports to the Telnet host.

ghost use Rattle.std.specs.Prelude.{◌≡◌};
ghost use Rattle.gate_model.specs.terminal.Reports.{device_report, position_report, report, sequence_report};

use crate::Reply;
use crate::arguments::first_choice;
use crate::state::State;
use gate_model::Params;

// DA: a VT102.
const DEVICE: &[u8] = b"\x1b[?6c";

impl State {
    ghost use Rattle.gate_model.specs.declared.control.Control.TheVariants.{Csi};

    // The report of a control sequence, or none.
    pub(crate) fn control_report(&self, private: bool, params: &Params, last: u8) -> Reply
        ensures { result ≡ report (Csi private params.now last) self.now }
    {
        if private {
            return Reply::none();
        }
        self.sequence_report(params, last)
    }

    // The same of a control sequence that isn't private: DSR 6, or DA 0.
    fn sequence_report(&self, params: &Params, last: u8) -> Reply
        ensures { result ≡ sequence_report params.now last self.now }
    {
        match last {
            b'n' if first_choice(params) == 6 => self.position_report(),
            b'c' if first_choice(params) == 0 => device_report(),
            _ => Reply::none(),
        }
    }

    // CPR: the cursor's row and column, both counted from 1.
    fn position_report(&self) -> Reply
        ensures { result ≡ position_report self.now }
    {
        let mut reply = Reply::none();
        reply.append(b"\x1b[");
        reply.append_number(self.y + 1);
        reply.append(b";");
        reply.append_number(self.x + 1);
        reply.append(b"R");
        reply
    }
}

fn device_report() -> Reply
    ensures { result ≡ device_report }
{
    let mut reply = Reply::none();
    reply.append(DEVICE);
    reply
}
