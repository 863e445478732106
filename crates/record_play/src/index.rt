//! What is known of the instructions of a recording that were read.

ghost use Rattle.std.specs.Prelude.{◌≡◌, List, Some, false};
ghost use Rattle.record_play.specs.Indexes.{IsAt, IsTold};
ghost use Rattle.record_play.specs.Recorded.{Placed, is_closing};

use crate::fault::RecordFault;
use crate::stamp::stamp_of;
use crate::sync_at::SyncAt;
use gate_model::Instr;

/// The syncs, the stamp of the last one, and whether the last instruction closes the recording.
#[derive(Drop)]
pub(crate) struct Index {
    pub syncs: Vec<SyncAt>,
    pub last: Option<u64>,
    pub closed: bool,
}

impl Index {
    /// Takes the instruction that ends at a place, or answers that it may not stand there.
    pub(crate) fn take(&mut self, meant: Option<Instr>, end: usize) -> Result<bool, RecordFault>
        ensures { (placed : List Placed) → IsAt self.old placed → IsTold placed meant end self.new result }
    {
        match meant {
            None => Ok(false),
            Some(_) if self.closed => Ok(false),
            Some(instr) => self.put(instr, end),
        }
    }

    // The same of one that the gateway sends, where the recording is open.
    fn put(&mut self, instr: Instr, end: usize) -> Result<bool, RecordFault>
        requires { self.old.closed ≡ false }
        ensures { (placed : List Placed) → IsAt self.old placed → IsTold placed (Some instr) end self.new result }
    {
        match (stamp_of(instr), self.last) {
            (Some(stamp), Some(last)) if stamp <= last => Ok(false),
            (Some(stamp), _) => {
                self.syncs.push(SyncAt { stamp, end })?;
                self.last = Some(stamp);
                Ok(true)
            }
            (None, _) => {
                self.closed = is_closing(instr);
                Ok(true)
            }
        }
    }
}

// Whether nothing may stand behind it.
fn is_closing(instr: Instr) -> bool
    ensures { result ≡ is_closing instr }
{
    match instr {
        Instr::Disconnect | Instr::Error { .. } => true,
        Instr::Size { .. }
        | Instr::Rect { .. }
        | Instr::Cfill { .. }
        | Instr::Copy { .. }
        | Instr::Sync { .. } => false,
    }
}
