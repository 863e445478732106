//! The recorder of a session.

ghost use Rattle.service_door.specs.Recorders.{IsKeeper};

use crate::marks::SharedMarks;
use gate_model::Bytes;
use gate_outside::{Bell, Sink};
use guac_handshake::Job;
use session_record::keep;
use shared_desk::Place;
use std::alloc::Global;
use std::sync::Wait;
use user_serve::OutletEnd;

/// Records a session, by `session_record::keep`, for a viewer that joined to keep it. At the end the viewer leaves. Where
/// that comes before the session's it is marked.
#[derive(Drop)]
pub struct RecorderJob<K, B> {
    pub(crate) alloc: Global,
    pub(crate) place: Place,
    pub(crate) first: Bytes,
    pub(crate) sink: K,
    pub(crate) bell: B,
    pub(crate) marks: SharedMarks,
    ghost keeper: { IsKeeper place first },
}

impl<K: Sink + Send + 'static, B: Bell + Send + 'static> Job for RecorderJob<K, B> {
    fn run<R: Wait>(self, rt: &R) {
        let RecorderJob {
            alloc,
            place,
            first,
            mut sink,
            bell,
            marks,
        } = self;
        let Place {
            mut reader,
            writer,
            role: _,
        } = place;
        let end = keep(rt, alloc, &mut reader, &first, &mut sink, &bell);
        if end != OutletEnd::Ended {
            marks.recorder_failed();
        }
        let _ = reader.leave(rt);
        drop(writer);
    }
}
