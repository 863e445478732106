//! The log of the keys of a client.

ghost use Rattle.std.specs.Prelude.{◌≡◌, ◌++◌, [], List, IfErr, IfOk, OnErr, OnOk};
ghost use Rattle.gate_model.specs.declared.act.Act.{Act as Acts};
ghost use Rattle.record_play.specs.Captured.{IsBadStreamOf, IsLogged};
ghost use Rattle.record_play.specs.KeyLog.{act_text, mods_behind};

use crate::fault::RecordFault;
use crate::limits::MOST_BYTES;
use crate::press::push_press;
use gate_model::{Act, Mods, NoMemory};
use guac_framing::{BadAt, Next, next_instruction};
use guac_instr::read_client;
use key_input::mods_after;
use std::alloc::Global;

/// Appends the log of the keys of a captured stream of a client, of at most 67,108,864 bytes: one text for each
/// press, in order, under the modifiers that the keys before it left held (this project's own). Instructions
/// that aren't keys, and an unfinished one at the end, are passed over. The place of the first byte that no
/// instruction can have, or that is one too many, is told. A refused call leaves the buffer as it was.
pub fn key_log(alloc: Global, bytes: &[u8], into: &mut Vec<u8>) -> Result<(), RecordFault>
    ensures logged { OnOk result (IsLogged bytes.now into.old.items into.new.items) }
    ensures fault { IfErr result (IsBadStreamOf bytes.now) }
    ensures kept { OnErr result (into.new.items ≡ into.old.items) }
{
    let log = read_log(alloc, bytes)?;
    into.extend_from_slice(&log.text)?;
    Ok(())
}

// What was told, and the modifiers that are held.
#[derive(Drop)]
struct Log {
    text: Vec<u8>,
    mods: Mods,
}

impl Log {
    // Tells what an act says. Only a press says something.
    fn take(&mut self, alloc: Global, act: Option<Act>) -> Result<(), NoMemory>
        ensures text { OnOk result (self.new.text.items ≡ self.old.text.items ++ act_text self.old.mods act) }
        ensures mods { OnOk result (self.new.mods ≡ mods_behind self.old.mods act) }
    {
        let Some(Act::Key { keysym, pressed }) = act else {
            return Ok(());
        };
        if pressed {
            push_press(alloc, &mut self.text, self.mods, keysym)?;
        }
        self.mods = mods_after(self.mods, keysym, pressed);
        Ok(())
    }
}

// The log of the whole stream.
fn read_log(alloc: Global, bytes: &[u8]) -> Result<Log, RecordFault>
    ensures logged { IfOk result (λ log. IsLogged bytes.now [] log.text.items) }
    ensures fault { IfErr result (IsBadStreamOf bytes.now) }
{
    let mut log = Log {
        text: Vec::new(alloc),
        mods: Mods {
            control_left: false,
            control_right: false,
            alt_left: false,
            alt_right: false,
        },
    };
    let mut at = 0;
    while at < bytes.len().min(MOST_BYTES) {
        match next_instruction(&bytes[at..]) {
            Next::Whole(frame, size) => {
                log.take(alloc, read_client(&frame))?;
                at += size;
            }
            Next::More => break,
            Next::Bad(BadAt { place, .. }) => {
                let place = (at + place).min(MOST_BYTES);
                return Err(RecordFault::Bad { place });
            }
        }
    }
    if bytes.len() > MOST_BYTES {
        return Err(RecordFault::Bad { place: MOST_BYTES });
    }
    Ok(log)
}
