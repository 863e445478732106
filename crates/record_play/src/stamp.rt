//! The stamps of instructions.

ghost use Rattle.std.specs.Prelude.{◌≡◌};
ghost use Rattle.record_play.specs.Stamps.{stamp_of};

use gate_model::Instr;

/// The stamp of a sync; None of any other instruction (the Guacamole manual, "sync").
pub fn stamp_of(instr: Instr) -> Option<u64>
    ensures { result ≡ stamp_of instr }
{
    match instr {
        Instr::Sync { stamp } => Some(stamp),
        _ => None,
    }
}
