ghost use Rattle.std.specs.Prelude.{◌≡◌, IsErr, OnOk, OnErr};
ghost use Rattle.gate_outside.specs.Edge.{CountsFault, GainedFront, gained};

use crate::{Failed, Sink};

/// Writes the whole text. At a fault some front of it was written.
pub fn write_all<K: Sink>(sink: &mut K, text: &[u8]) -> Result<(), Failed>
    ensures ok { OnOk result (K.written sink.new ≡ gained (K.written sink.old) text.now) }
    ensures part { OnErr result (GainedFront (K.written sink.old) (K.written sink.new) text.now) }
    ensures faults { CountsFault (IsErr result) (K.faults sink.old) (K.faults sink.new) }
{
    let mut at = 0;
    while at < text.len() {
        at += sink.write(&text[at..])?;
    }
    Ok(())
}
