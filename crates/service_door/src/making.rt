//! A session as it is made for the table.

ghost use Rattle.std.specs.Prelude.{IfOk};
ghost use Rattle.guac_handshake.specs.Asks.{IsAskable};
ghost use Rattle.service_door.specs.Begun.{IsMade};

use crate::jobs::{PumpJob, SenderJob};
use crate::marks::SharedMarks;
use crate::opening::{Opened, Prepared, open_session, prepare};
use crate::recorder::RecorderJob;
use crate::recording::recorder_of;
use crate::session::Session;
use gate_model::{Bytes, Faces, NoMemory, Share};
use gate_outside::Bell;
use guac_handshake::{Ask, Recorder};
use shared_desk::Place;
use std::alloc::Global;
use std::sync::Wait;

/// What a session is made of: its first moment, the faces of its screen, the clock and the link of its pump and its
/// sender, whether a recorder is wanted, and the link of that, if it could be dialed.
#[derive(Drop)]
pub(crate) struct Parts<S, K, C> {
    pub(crate) now: u64,
    pub(crate) faces: Faces,
    pub(crate) clock: C,
    pub(crate) link: (S, K),
    pub(crate) wanted: bool,
    pub(crate) recorder: Option<(S, K)>,
}

/// A session for the table, its owner's place and what that is given first, and its jobs, which wait to be started.
#[derive(Drop)]
pub(crate) struct Made<S, K, C, B> {
    pub(crate) session: Session,
    pub(crate) place: Place,
    pub(crate) first: Bytes,
    pub(crate) pump: PumpJob<S, C, B>,
    pub(crate) sender: SenderJob<K, B>,
    pub(crate) recorder: Recorder<RecorderJob<K, B>>,
}

/// Makes the session of the ask, which its owner joins, and then its recorder.
pub(crate) fn make<R: Wait, S: Drop, K: Drop, C: Drop, B: Bell>(
    rt: &R,
    alloc: Global,
    ask: &Ask,
    parts: Parts<S, K, C>,
    bell: &B,
) -> Result<Made<S, K, C, B>, NoMemory>
    requires { IsAskable ask.now }
    ensures { IfOk result (λ made. IsMade parts.wanted parts.faces ask.now made.session made.place made.first) }
{
    let Parts {
        now,
        faces,
        clock,
        link,
        wanted,
        recorder,
    } = parts;
    let Opened {
        mut host,
        place,
        first,
    } = open_session(alloc, now, faces, ask)?;
    let marks = SharedMarks::new(alloc, ask.mode != Share::Nobody)?;
    let recorder = recorder_of(rt, alloc, wanted, recorder, bell, &marks, &mut host);
    let Prepared {
        session,
        pump,
        sender,
    } = prepare(alloc, clock, bell, host, link, marks)?;
    Ok(Made {
        session,
        place,
        first,
        pump,
        sender,
        recorder,
    })
}
