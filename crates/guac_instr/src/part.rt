//! The values of an instruction that the gateway sends, and its text from them.

ghost use Rattle.std.specs.Prelude.{◌≡◌, ◌++◌, ◌∷◌, map, false, OnOk, OnErr};
ghost use Rattle.std.specs.Str.{chars};
ghost use Rattle.gate_model.specs.Sequences.{BeginsWith};
ghost use Rattle.gate_model.specs.text.Text.{text_of_elements};
ghost use Rattle.guac_instr.specs.Parts.{points_of};
ghost use Rattle.guac_framing.specs.Appended.{separated};

use gate_model::NoMemory;
use guac_framing::{put_element, put_end, put_number};

/// A value of an instruction.
#[derive(Clone, Copy)]
pub(crate) enum Part<'a> {
    Word(&'a str),
    Layer(i32),
    Number(u64),
}

// Appends an element with this value.
fn put_part(into: &mut Vec<u8>, part: Part<'_>) -> Result<(), NoMemory>
    ensures appended { OnOk result (into.new.items ≡ into.old.items ++ separated false (points_of part.entry)) }
    ensures unchanged { OnErr result (into.new.items ≡ into.old.items) }
{
    match part {
        Part::Word(text) => put_element(into, false, text),
        Part::Layer(layer) => put_number(into, false, i128::from(layer)),
        Part::Number(number) => put_number(into, false, i128::from(number)),
    }
}

/// Appends the text of the instruction with this opcode and these values. Refused, it may have appended
/// a front of it.
pub(crate) fn put_parts(
    into: &mut Vec<u8>,
    opcode: &str,
    parts: &[Part<'_>],
) -> Result<(), NoMemory>
    ensures appended { OnOk result (into.new.items ≡ into.old.items ++ text_of_elements (chars opcode.now ∷ map points_of parts.now)) }
    ensures front { BeginsWith into.new.items into.old.items }
{
    put_element(into, true, opcode)?;
    for part in parts {
        put_part(into, *part)?;
    }
    put_end(into)?;
    Ok(())
}
