//! Sessions that were just opened, and viewers that join and go.

ghost use Rattle.std.specs.Prelude.{◌≡◌, IfOk};
ghost use Rattle.gate_model.specs.session.Steps.{IsSetup};
ghost use Rattle.shared_desk.specs.Hosts.{IsFresh};

use anyhow::{Result, bail};
use gate_model::limits::MOST_ENTRIES;
use gate_model::{Asked, Bytes, Faces, Setup, Share, Text};
use shared_desk::{AnyPass, Desk, HostPass, JoinRefusal, Place, ReaderPass, WriterPass, share};
use std::alloc::Global;
use std::marker::Brand;
use std::sync::Wait;

/// The size of a screen: 2 by 1, 20 by 4, or 80 by 24.
#[derive(Clone, Copy)]
pub enum Screen {
    Small,
    Wide,
    Whole,
}

/// A session that others may control, without viewers.
pub fn opened(alloc: Global, screen: Screen) -> Result<HostPass> {
    opened_as(alloc, screen, Share::Control, MOST_ENTRIES)
}

/// A session of this share mode, without viewers, which has room for so many entries; for one at least.
pub fn opened_as(alloc: Global, screen: Screen, mode: Share, entries: u64) -> Result<HostPass> {
    let setup = setup(alloc, screen, mode, entries)?;
    let Ok(desk) = Desk::start(alloc, setup, 0) else {
        bail!("no memory");
    };
    let Ok((host, _none)) = share::<Brand>(alloc, desk) else {
        bail!("no memory");
    };
    Ok(host)
}

fn setup(alloc: Global, screen: Screen, mode: Share, entries: u64) -> Result<Setup>
    ensures { IfOk result (λ s. IsSetup s) }
{
    let term = Text::of(String::from_str(alloc, "linux")?);
    let (cols, rows) = match screen {
        Screen::Small => (2, 1),
        Screen::Wide => (20, 4),
        Screen::Whole => (80, 24),
    };
    Ok(Setup {
        cols,
        rows,
        mode,
        term,
        faces: Faces::Ascii,
        entries: entries.clamp(1, MOST_ENTRIES),
    })
}

/// A viewer joins: its place, and the text that it is given first.
pub fn joined<R: Wait>(
    rt: &R,
    alloc: Global,
    host: &mut HostPass,
    asked: Asked,
) -> Result<(Place, Bytes), JoinRefusal>
    ensures session { host.new.session ≡ host.old.session }
    ensures reader { IfOk result (λ joined. joined.0.reader.session ≡ host.old.session) }
    ensures writer { IfOk result (λ joined. joined.0.writer.session ≡ host.old.session) }
    ensures fresh { IfOk result (λ joined. IsFresh joined.0 joined.1) }
{
    let mut text = Vec::new(alloc);
    let place = host.join(rt, asked, &mut text)?;
    Ok((place, Bytes::of(text)))
}

/// Gives both passes of a viewer back.
pub fn give_back(host: &mut HostPass, reader: ReaderPass, writer: WriterPass)
    requires reader { reader.session ≡ host.old.session }
    requires writer { writer.session ≡ host.old.session }
    ensures session { host.new.session ≡ host.old.session }
{
    host.give(AnyPass::Reader(reader));
    host.give(AnyPass::Writer(writer));
}
