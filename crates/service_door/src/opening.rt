//! A session as it begins, before it stands in the table.

ghost use Rattle.std.specs.Prelude.{IfOk};
ghost use Rattle.gate_model.specs.session.Steps.{IsSetup};
ghost use Rattle.guac_handshake.specs.Asks.{IsAskable};
ghost use Rattle.service_door.specs.Begun.{HasOpened, HasPrepared, HasSetup};

use crate::jobs::{PumpJob, SenderJob};
use crate::marks::SharedMarks;
use crate::session::Session;
use gate_model::{Asked, Bytes, Faces, NoMemory, Setup, Text};
use gate_outside::Bell;
use guac_handshake::Ask;
use shared_desk::{Desk, HostPass, Place, share};
use std::alloc::Global;
use std::marker::Brand;

/// The most entries of a session.
const MOST_ENTRIES: u64 = 1 << 40;

/// A session that its owner has joined.
#[derive(Drop)]
pub(crate) struct Opened {
    pub(crate) host: HostPass,
    pub(crate) place: Place,
    pub(crate) first: Bytes,
}

/// Opens a session as it is asked, with these faces, which its owner joins.
pub(crate) fn open_session(
    alloc: Global,
    now: u64,
    faces: Faces,
    ask: &Ask,
) -> Result<Opened, NoMemory>
    requires { IsAskable ask.now }
    ensures { IfOk result (λ made. HasOpened faces ask.now made.host made.place made.first) }
{
    let setup = setup_of(alloc, faces, ask)?;
    let mut desk = Desk::start(alloc, setup, now)?;
    let mut first = Vec::new(alloc);
    let Ok(_) = desk.join(Asked::Owner, &mut first) else {
        return Err(NoMemory);
    };
    let (host, owner) = share::<Brand>(alloc, desk)?;
    let Some(place) = owner else {
        return Err(NoMemory);
    };
    Ok(Opened {
        host,
        place,
        first: Bytes::of(first),
    })
}

// What the session is opened with.
fn setup_of(alloc: Global, faces: Faces, ask: &Ask) -> Result<Setup, NoMemory>
    requires { IsAskable ask.now }
    ensures valid { IfOk result (λ setup. IsSetup setup) }
    ensures asked { IfOk result (HasSetup ask.now faces) }
{
    Ok(Setup {
        cols: ask.cols,
        rows: ask.rows,
        mode: ask.mode,
        term: Text::of(String::from_str(alloc, ask.term.as_str())?),
        faces,
        entries: MOST_ENTRIES,
    })
}

/// A session for the table, and its jobs, which wait to be started.
#[derive(Drop)]
pub(crate) struct Prepared<S, K, C, B> {
    pub(crate) session: Session,
    pub(crate) pump: PumpJob<S, C, B>,
    pub(crate) sender: SenderJob<K, B>,
}

/// Prepares the session of the host, with its marks, for the table, with one place out, and its jobs over the two ends of
/// its link. All memory that they need is taken here.
pub(crate) fn prepare<S: Drop, K: Drop, C: Drop, B: Bell>(
    alloc: Global,
    clock: C,
    bell: &B,
    mut host: HostPass,
    link: (S, K),
    marks: SharedMarks,
) -> Result<Prepared<S, K, C, B>, NoMemory>
    ensures session { IfOk result (λ made. HasPrepared host made.session) }
{
    let Some((link_pass, sender_pass)) = host.link() else {
        return Err(NoMemory);
    };
    let (source, sink) = link;
    let pump = PumpJob {
        alloc,
        pass: link_pass,
        source,
        clock,
        bell: bell.another(alloc)?,
        marks: marks.another()?,
    };
    let sender = SenderJob {
        pass: sender_pass,
        sink,
        bell: bell.another(alloc)?,
        marks: marks.another()?,
    };
    let session = Session {
        host,
        places: 1,
        marks,
    };
    Ok(Prepared {
        session,
        pump,
        sender,
    })
}
