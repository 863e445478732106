//! The strict reading of a recording.

ghost use Rattle.std.specs.Prelude.{◌≡◌, List, IfErr, IfOk};
ghost use Rattle.record_play.specs.Indexes.{IsAt, IsFaultOf};
ghost use Rattle.record_play.specs.Recorded.{IsRecorded, Placed};

use crate::fault::RecordFault;
use crate::index::Index;
use crate::limits::MOST_BYTES;
use guac_framing::{BadAt, Next, next_instruction};
use guac_instr::read_server;
use std::alloc::Global;

/// Reads the bytes to their end: the index of their instructions, and how many bytes of an unfinished one stand
/// behind them. The first fault is told by its place.
pub(crate) fn read(alloc: Global, bytes: &[u8]) -> Result<(Index, usize), RecordFault>
    ensures read { IfOk result (λ r. (placed : List Placed) × IsAt r.0 placed × IsRecorded bytes.now placed r.1) }
    ensures fault { IfErr result (λ fault. IsFaultOf bytes.now fault) }
{
    let mut index = Index {
        syncs: Vec::new(alloc),
        last: None,
        closed: false,
    };
    let mut at = 0;
    while at < bytes.len().min(MOST_BYTES) {
        match next_instruction(&bytes[at..]) {
            Next::Whole(frame, size) => {
                if !index.take(read_server(&frame), at + size)? {
                    return Err(RecordFault::Bad { place: at });
                }
                at += size;
            }
            Next::More => break,
            Next::Bad(BadAt { place, .. }) => {
                let place = (at + place).min(MOST_BYTES);
                return Err(RecordFault::Bad { place });
            }
        }
    }
    if bytes.len() > MOST_BYTES {
        return Err(RecordFault::Bad { place: MOST_BYTES });
    }
    let cut = bytes.len() - at;
    Ok((index, cut))
}
