//! The text of a script's line `write N TEXT`, read as instructions of a client.

ghost use Rattle.std.specs.Prelude.{◌≡◌, ◌++◌, ◌+◌, ◌<◌, IfOk, IsSome, OnErr, OnOk};
ghost use Rattle.script_grammar.specs.Acts.{AsksRoom, HasFewActs, IsReading, acts_from, passed_from};

use crate::reading::Reading;
use gate_model::{Act, Acts, NoMemory};
use guac_framing::{BadAt, Next, next_instruction};
use guac_instr::read_client;
use std::alloc::Global;

/// The most instructions of a text (this project's own rule).
const MOST_INSTRUCTIONS: u32 = 4096;

/// Reads the text from its beginning, instruction after instruction, at most 4,096 (this project's own
/// rule). Where whole instructions reach to its end: the acts of those that have a meaning, in order, and
/// how many have none; an empty text is no instructions. Else the place where the instruction begins that
/// isn't finished at the end, or the place of the first bad byte and why it is bad; both are counted in
/// bytes from the text's beginning. Where a 4,097th whole instruction is met there are too many, whatever
/// stands behind it. The only error is want of memory, for the act of one of the first 4,096 instructions.
pub fn read_acts(alloc: Global, text: &[u8]) -> Result<Reading, NoMemory>
    ensures reading { IfOk result (IsReading text.now) }
    ensures few { IfOk result HasFewActs }
    ensures wanting { OnErr result (AsksRoom text.now) }
{
    let mut acts = Vec::new(alloc);
    let mut passed: u32 = 0;
    let mut count: u32 = 0;
    let mut at = 0;
    while at < text.len() {
        match next_instruction(&text[at..]) {
            Next::Whole(frame, size) => {
                if count == MOST_INSTRUCTIONS {
                    return Ok(Reading::TooMany);
                }
                keep(&mut acts, &mut passed, read_client(&frame))?;
                count += 1;
                at += size;
            }
            Next::More => return Ok(Reading::Cut(at)),
            Next::Bad(BadAt { place, kind }) => {
                return Ok(Reading::Bad(BadAt {
                    place: at + place,
                    kind,
                }));
            }
        }
    }
    Ok(Reading::Whole {
        acts: Acts::of(acts),
        passed,
    })
}

// Adds the act of an instruction, or counts the instruction as passed over where it has none.
fn keep(acts: &mut Vec<Act>, passed: &mut u32, act: Option<Act>) -> Result<(), NoMemory>
    requires room { passed.old < 4096 }
    ensures acts { OnOk result (acts.new.items ≡ acts.old.items ++ acts_from act) }
    ensures passed { OnOk result (passed.new ≡ passed.old + passed_from act) }
    ensures wanting { OnErr result (IsSome act) }
{
    match act {
        Some(act) => acts.push(act)?,
        None => *passed += 1,
    }
    Ok(())
}
