//! How a viewer is refused before it is greeted.

ghost use Rattle.std.specs.Prelude.{◌≡◌, ◌≤◌, ℕ, List};
ghost use Rattle.gate_model.specs.Sequences.{BeginsWith};
ghost use Rattle.gate_model.specs.text.Statuses.{no_memory};
ghost use Rattle.gate_outside.specs.Edge.{gained};
ghost use Rattle.guac_handshake.specs.Texts.{error_text};

use gate_model::Instr;
use gate_model::statuses::NO_MEMORY;
use gate_outside::{Sink, write_all};
use guac_instr::text_of;
use std::alloc::Global;

/// Writes the `error` of want of memory, or a front of it where a write fails, or nothing where there is no memory for
/// the text either.
pub(crate) fn refuse<K: Sink>(alloc: Global, sink: &mut K)
    ensures written { (written : List ℕ) × (K.written sink.new ≡ gained (K.written sink.old) written) × BeginsWith (error_text no_memory) written }
    ensures later { K.faults sink.old ≤ K.faults sink.new }
{
    let mut text = Vec::new(alloc);
    let instr = Instr::Error { status: NO_MEMORY };
    let Ok(()) = text_of(&instr, &mut text) else {
        return;
    };
    let _ = write_all(sink, &text);
}
