//! What a client is written.

ghost use Rattle.std.specs.Prelude.{◌≡◌, ◌++◌, Err, IfErr, IfOk, IsErr, OnOk, OnErr};
ghost use Rattle.gate_outside.specs.Edge.{CountsFault, GainedFront, gained};
ghost use Rattle.guac_handshake.specs.Texts.{IsWriteStop, args_text, error_text, ready_text};

use crate::request::Selected;
use crate::stop::Stop;
use gate_model::{Instr, NoMemory, Text};
use gate_outside::{Failed, Sink, write_all};
use guac_framing::{put_element, put_end};
use guac_instr::text_of;
use std::alloc::Global;

// The parameters of a session that is to begin, and of one that is there (the Guacamole manual, "The
// Guacamole protocol", on the handshake; which they are is this project's own).
const BEGIN_ARGS: &[u8] =
    b"4.args,13.VERSION_1_1_0,8.hostname,4.port,13.terminal-type,9.read-only,7.sharing;";

const JOIN_ARGS: &[u8] = b"4.args,13.VERSION_1_1_0,9.read-only;";

/// Writes the parameters that `connect` is to have.
pub(crate) fn write_args<K: Sink>(sink: &mut K, selected: &Selected) -> Result<(), Stop>
    ensures ok { OnOk result (K.written sink.new ≡ gained (K.written sink.old) (args_text selected.now)) }
    ensures part { OnErr result (GainedFront (K.written sink.old) (K.written sink.new) (args_text selected.now)) }
    ensures kind { IfErr result (λ stop. stop ≡ Stop.WriteFault) }
    ensures writes { CountsFault (IsErr result) (K.faults sink.old) (K.faults sink.new) }
{
    let args = match selected {
        Selected::Telnet => BEGIN_ARGS,
        Selected::Known(_) => JOIN_ARGS,
    };
    write(sink, args)
}

/// Writes `ready` with the ID.
pub(crate) fn write_ready<K: Sink>(alloc: Global, sink: &mut K, id: &Text) -> Result<(), Stop>
    ensures ok { OnOk result (K.written sink.new ≡ gained (K.written sink.old) (ready_text id.now)) }
    ensures part { OnErr result (GainedFront (K.written sink.old) (K.written sink.new) (ready_text id.now)) }
    ensures kind { IfErr result IsWriteStop }
    ensures writes { CountsFault (result ≡ Err Stop.WriteFault) (K.faults sink.old) (K.faults sink.new) }
{
    let text = ready(alloc, id)?;
    write(sink, &text)
}

fn ready(alloc: Global, id: &Text) -> Result<Vec<u8>, NoMemory>
    ensures { IfOk result (λ text. text.items ≡ ready_text id.now) }
{
    let mut text = Vec::new(alloc);
    put_element(&mut text, true, "ready")?;
    put_element(&mut text, false, id.as_str())?;
    put_end(&mut text)?;
    Ok(text)
}

/// Writes `error` with the status.
pub(crate) fn write_error<K: Sink>(alloc: Global, sink: &mut K, status: u16) -> Result<(), Stop>
    ensures ok { OnOk result (K.written sink.new ≡ gained (K.written sink.old) (error_text status)) }
    ensures part { OnErr result (GainedFront (K.written sink.old) (K.written sink.new) (error_text status)) }
    ensures kind { IfErr result IsWriteStop }
    ensures writes { CountsFault (result ≡ Err Stop.WriteFault) (K.faults sink.old) (K.faults sink.new) }
{
    let mut text = Vec::new(alloc);
    text_of(&Instr::Error { status }, &mut text)?;
    write(sink, &text)
}

fn write<K: Sink>(sink: &mut K, text: &[u8]) -> Result<(), Stop>
    ensures ok { OnOk result (K.written sink.new ≡ gained (K.written sink.old) text.now) }
    ensures part { OnErr result (GainedFront (K.written sink.old) (K.written sink.new) text.now) }
    ensures kind { IfErr result (λ stop. stop ≡ Stop.WriteFault) }
    ensures writes { CountsFault (IsErr result) (K.faults sink.old) (K.faults sink.new) }
{
    match write_all(sink, text) {
        Ok(()) => Ok(()),
        Err(Failed) => Err(Stop::WriteFault),
    }
}
