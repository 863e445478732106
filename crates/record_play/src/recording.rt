//! A recording.

ghost use Rattle.std.specs.Prelude.{◌≡◌, ◌≤◌, ◌<◌, IfOk, IfErr, length, MatchOption, slice_get, Some};
ghost use Rattle.record_play.specs.Indexes.{IsFaultOf};
ghost use Rattle.record_play.specs.Syncs.{IsFound, IsOf};

use crate::fault::RecordFault;
use crate::reading::read;
use crate::sync_at::SyncAt;
use std::alloc::Global;
use std::marker::Model;

/// A recording: bytes that are whole instructions of the gateway, with at most one that isn't finished behind them, and
/// an index of their syncs. It lends them from the bytes.
#[derive(Drop)]
pub struct Recording<'a> {
    pub(crate) bytes: &'a [u8],
    pub(crate) syncs: Vec<SyncAt>,
    pub(crate) closed: bool,
    pub(crate) cut: usize,
}

impl<'a> Model for Recording<'a> {
    ghost use Rattle.record_play.specs.Syncs.{IsOf, Recorded};

    ghost Value = { Recorded };

    ghost view = { λ r. record { bytes = r.bytes.now; syncs = r.syncs.items; closed = r.closed; cut = r.cut } };

    ghost invariant = { λ r. IsOf record { bytes = r.bytes.now; syncs = r.syncs.items; closed = r.closed; cut = r.cut } };
}

impl<'a> Recording<'a> {
    /// Reads bytes as a recording, which they are where they are whole instructions that the gateway sends, whose
    /// stamps rise, with nothing behind a closing one but an unfinished rest, at most 67,108,864 bytes in all. Else the
    /// place of the first fault is told.
    pub fn read(alloc: Global, bytes: &'a [u8]) -> Result<Recording<'a>, RecordFault>
        ensures bytes { IfOk result (λ r. r.bytes ≡ bytes.now) }
        ensures recorded { IfOk result IsOf }
        ensures fault { IfErr result (IsFaultOf bytes.now) }
    {
        let (index, cut) = read(alloc, bytes)?;
        Ok(Recording {
            bytes,
            syncs: index.syncs,
            closed: index.closed,
            cut,
        })
    }

    /// The syncs, in order, each with the number of bytes through it.
    pub fn syncs(&self) -> &[SyncAt]
        ensures { result.now ≡ self.now.syncs }
    {
        &self.syncs
    }

    /// Whether the last instruction is `disconnect` or `error`.
    pub fn closed(&self) -> bool
        ensures { result ≡ self.now.closed }
    {
        self.closed
    }

    /// How many bytes the unfinished instruction at the end has.
    pub fn cut(&self) -> usize
        ensures { result ≡ self.now.cut }
    {
        self.cut
    }

    /// The number of the last sync whose stamp isn't above this one, counted from 0; None exactly where every stamp is
    /// above.
    pub fn find(&self, stamp: u64) -> Option<usize>
        ensures { IsFound self.now.syncs stamp result }
    {
        match self.syncs.partition_point(|sync| sync.stamp <= stamp) {
            0 => None,
            count => Some(count - 1),
        }
    }
}
