//! How a session gets its recorder, before it stands in the table.

ghost use Rattle.std.specs.Prelude.{◌≡◌};
ghost use Rattle.service_door.specs.Recorders.{HasSeen};

use crate::marks::SharedMarks;
use crate::recorder::RecorderJob;
use gate_model::{Asked, Bytes};
use gate_outside::Bell;
use guac_handshake::Recorder;
use shared_desk::HostPass;
use std::alloc::Global;
use std::sync::Wait;

/// The recorder of a session, where one is wanted, over its link, where it could be dialed: it joins to keep the
/// session, and its job waits to be started. All memory that it needs is taken here. What it sends is never read.
pub(crate) fn recorder_of<R: Wait, S: Drop, K: Drop, B: Bell>(
    rt: &R,
    alloc: Global,
    wanted: bool,
    link: Option<(S, K)>,
    bell: &B,
    marks: &SharedMarks,
    host: &mut HostPass,
) -> Recorder<RecorderJob<K, B>>
    ensures session { host.new.session ≡ host.old.session }
    ensures seen { HasSeen wanted host.old.view.seen host.new.view.seen }
{
    if !wanted {
        return Recorder::Unwanted;
    }
    let Some((_source, sink)) = link else {
        return Recorder::Failed;
    };
    let (Ok(bell), Ok(marks)) = (bell.another(alloc), marks.another()) else {
        return Recorder::Failed;
    };
    let mut first = Vec::new(alloc);
    let Ok(place) = host.join(rt, Asked::Keep, &mut first) else {
        return Recorder::Failed;
    };
    Recorder::Ready(RecorderJob {
        alloc,
        place,
        first: Bytes::of(first),
        sink,
        bell,
        marks,
    })
}
