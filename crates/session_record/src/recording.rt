//! A recording of one session.

ghost use Rattle.std.specs.Prelude.{◌≡◌, ℕ, List};
ghost use Rattle.gate_model.specs.session.Delivered.{delivered};
ghost use Rattle.gate_model.specs.text.Text.{texts};
ghost use Rattle.gate_outside.specs.Edge.{CountsFault, gained};
ghost use Rattle.shared_desk.specs.Members.{Stays};
ghost use Rattle.user_serve.specs.Outlets.{OutletRun};
ghost use Rattle.user_serve.specs.declared.ends.OutletEnd.TheVariants as ends;

use gate_model::Bytes;
use gate_outside::{Bell, Sink};
use shared_desk::ReaderPass;
use std::alloc::Global;
use std::sync::Wait;
use user_serve::{OutletEnd, outlet};

/// Writes a recording: all that the viewer of the pass is given, from `first` on, the text of what its Join gave,
/// up to the closing instruction. The pass is that of a viewer with the role Keep. Where nothing is new it waits for
/// the bell, and at each end the sink is finished. A recording is the stream of instructions that a client is sent
/// behind its handshake (the Guacamole manual, "The Guacamole protocol").
pub fn keep<R: Wait, K: Sink, B: Bell>(
    rt: &R,
    alloc: Global,
    pass: &mut ReaderPass,
    first: &Bytes,
    sink: &mut K,
    bell: &B,
) -> OutletEnd
    requires fresh { first.now ≡ texts (delivered pass.old.view.seen pass.old.viewer) }
    ensures stays { Stays pass.old pass.new }
    ensures ran { (written : List ℕ) × (K.written sink.new ≡ gained (K.written sink.old) written) × OutletRun pass.old.viewer pass.old.view pass.new.view written result }
    ensures faults { CountsFault (result ≡ ends.WriteFault) (K.faults sink.old) (K.faults sink.new) }
{
    outlet(rt, alloc, pass, first, sink, bell)
}
