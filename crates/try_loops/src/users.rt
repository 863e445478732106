//! An intake, an outlet and a whole connection of a viewer, over ends in memory.

use crate::links::{sent, sink};
use crate::nines::Nines;
use anyhow::{Context, Result, bail};
use gate_model::limits::MOST_ENTRIES;
use gate_model::{Asked, Bytes, Cause, Share};
use gate_outside::{MemBell, MemSink, MemSource};
use shared_desk::{HostPass, Place, ReadRefusal};
use std::alloc::Global;
use std::sync::Wait;
use std::thread::Threads;
use try_doors::{OneDoor, Session};
use try_sessions::{Screen, joined, opened};
use user_serve::{IntakeEnd, OutletEnd, UserEnd, intake, outlet, serve_user};

// The most bytes of a sink.
const ROOM: usize = 65_536;

// A viewer types two keys, the second cut between the bytes that were there and those that come, and ends.
const REST: &[u8] = b"3.key,2.97,1.1;3.key,2.9";

const MORE: &[u8] = b"8,1.1;10.disconnect;3.key,2.99,1.1;";

/// The name of the session behind the door.
pub const HERE: &str = "$here";

/// A viewer's greeting (the Guacamole manual, "The Guacamole protocol"), and then a key.
pub const VISIT: &[u8] =
    b"6.select,5.$here;7.connect,13.VERSION_1_1_0,0.;3.key,2.97,1.1;10.disconnect;";

// A viewer that asks for another session.
const AWAY: &[u8] = b"6.select,5.there;";

/// An intake whose source ends after `disconnect`: how it ended, what the host was sent, and how many bytes are left
/// unread.
pub fn typed<R: Wait>(rt: &R, alloc: Global) -> Result<String> {
    heard(rt, alloc, MORE, 0)
}

/// The first read fails.
pub fn unread<R: Wait>(rt: &R, alloc: Global) -> Result<String> {
    heard(rt, alloc, MORE, 1)
}

/// The bytes that come make no instruction: behind an element of two characters stands no separator.
pub fn broken<R: Wait>(rt: &R, alloc: Global) -> Result<String> {
    heard(rt, alloc, b"8.", 0)
}

/// The bytes end within an instruction.
pub fn cut<R: Wait>(rt: &R, alloc: Global) -> Result<String> {
    heard(rt, alloc, b"", 0)
}

/// Bytes that begin an instruction whose first length has no end: how the intake ended, and whether its viewer has left.
pub fn endless<R: Wait>(rt: &R, alloc: Global) -> Result<String> {
    let mut host = opened(alloc, Screen::Small)?;
    let Ok((place, _first)) = joined(rt, alloc, &mut host, Asked::Owner) else {
        bail!("not joined");
    };
    let Place {
        mut reader,
        mut writer,
        role: _,
    } = place;
    let (mut source, mut bytes) = (Nines, Vec::new(alloc));
    let end = intake(
        rt,
        alloc,
        &mut writer,
        &mut source,
        &mut bytes,
        &MemBell::new(),
    );
    let left = matches!(reader.read(rt, &mut bytes), Err(ReadRefusal::NoViewer));
    Ok(format!(in alloc; "{end:?}, left: {left}")?)
}

fn heard<R: Wait>(rt: &R, alloc: Global, more: &[u8], fail: u64) -> Result<String> {
    let mut host = opened(alloc, Screen::Small)?;
    let (end, unread) = hear(rt, alloc, &mut host, more, fail)?;
    let sent = sent_at_close(rt, alloc, &mut host)?;
    Ok(format!(in alloc; "{end:?}, {unread} unread, {sent}")?)
}

// How the intake of a viewer that joins ends, and how many bytes it leaves unread.
fn hear<R: Wait>(
    rt: &R,
    alloc: Global,
    host: &mut HostPass,
    more: &[u8],
    fail: u64,
) -> Result<(IntakeEnd, usize)> {
    let mut source = MemSource::new(more.to_vec(alloc)?, 7, [fail].to_vec(alloc)?);
    let mut rest = REST.to_vec(alloc)?;
    let Ok((place, _first)) = joined(rt, alloc, host, Asked::Owner) else {
        bail!("not joined");
    };
    let mut writer = place.writer;
    let end = intake(
        rt,
        alloc,
        &mut writer,
        &mut source,
        &mut rest,
        &MemBell::new(),
    );
    Ok((end, rest.len()))
}

// Closes the session, and sends what it has for the host.
fn sent_at_close<R: Wait>(rt: &R, alloc: Global, host: &mut HostPass) -> Result<String> {
    let _ = host.close(rt, Cause::Stopped);
    let (_link, mut sending) = host.link().context("no link")?;
    sent(rt, alloc, &mut sending, 0)
}

/// An outlet of a closed session: how it ended, whether it wrote what the viewer was given first, and what it wrote
/// behind that.
pub fn shown<R: Wait>(rt: &R, alloc: Global) -> Result<String> {
    showing(rt, alloc, true, 0)
}

/// The second write fails.
pub fn unwritten<R: Wait>(rt: &R, alloc: Global) -> Result<String> {
    showing(rt, alloc, true, 2)
}

/// The viewer has left.
pub fn left<R: Wait>(rt: &R, alloc: Global) -> Result<String> {
    showing(rt, alloc, false, 0)
}

fn showing<R: Wait>(rt: &R, alloc: Global, closed: bool, fail: u64) -> Result<String> {
    let mut sink = sink(alloc, ROOM, 7, fail)?;
    let (end, first) = show(rt, alloc, &mut sink, closed)?;
    let behind = behind(alloc, sink.written(), first.as_slice())?;
    Ok(format!(in alloc; "{end:?}, {behind}")?)
}

// How the outlet ends of a viewer that joins a session, which is then closed or left, and what it was given first.
fn show<R: Wait>(
    rt: &R,
    alloc: Global,
    sink: &mut MemSink,
    closed: bool,
) -> Result<(OutletEnd, Bytes)> {
    let mut host = opened(alloc, Screen::Small)?;
    let Ok((place, first)) = joined(rt, alloc, &mut host, Asked::Owner) else {
        bail!("not joined");
    };
    let Place {
        mut reader,
        mut writer,
        role: _,
    } = place;
    if closed {
        let _ = host.close(rt, Cause::ServerEnd);
    } else {
        let _ = writer.leave(rt);
    }
    let end = outlet(rt, alloc, &mut reader, &first, sink, &MemBell::new());
    Ok((end, first))
}

// What stands behind the front, or how many bytes there are where it isn't whole.
fn behind(alloc: Global, written: &[u8], front: &[u8]) -> Result<String> {
    match written.strip_prefix(front) {
        Some(rest) => {
            let rest = std::str::from_utf8(rest)?;
            Ok(format!(in alloc; "all that was given, and then '{rest}'")?)
        }
        None => {
            let count = written.len();
            Ok(format!(in alloc; "{count} bytes of it")?)
        }
    }
}

/// A door to a session that others may control.
pub fn door(alloc: Global) -> Result<OneDoor> {
    let session = Session::new(alloc, Share::Control, MOST_ENTRIES)?;
    Ok(OneDoor::with(HERE, session))
}

/// How a connection ends on which these bytes come, nine at once.
pub fn end_of<R>(
    rt: &R,
    alloc: Global,
    bytes: &[u8],
    sink: &mut MemSink,
    door: &mut OneDoor,
) -> Result<UserEnd>
where
    R: Threads + Wait + Copy + Send + Sync + 'static,
{
    let mut source = MemSource::new(bytes.to_vec(alloc)?, 9, [0u64].to_vec(alloc)?);
    Ok(serve_user(rt, alloc, &mut source, sink, door, &MemBell::new()))
}

/// A whole connection: how its loops ended, and whether the viewer was written the answers of a greeting first.
pub fn visited<R>(rt: &R, alloc: Global) -> Result<String>
where
    R: Threads + Wait + Copy + Send + Sync + 'static,
{
    let mut sink = sink(alloc, ROOM, 11, 0)?;
    let UserEnd::Served(visit) = end_of(rt, alloc, VISIT, &mut sink, &mut door(alloc)?)? else {
        bail!("not served");
    };
    let (intake, outlet) = (visit.intake, visit.outlet);
    let expected: &[u8] = b"4.args,13.VERSION_1_1_0,9.read-only;5.ready,5.$here;4.size,";
    let greeted = sink.written().starts_with(expected);
    Ok(format!(in alloc; "{intake:?}, {outlet:?}, greeted: {greeted}")?)
}

/// A connection that ends in its greeting, since it asks for another session.
pub fn turned_away<R>(rt: &R, alloc: Global) -> Result<String>
where
    R: Threads + Wait + Copy + Send + Sync + 'static,
{
    let mut sink = sink(alloc, ROOM, 11, 0)?;
    let UserEnd::Refused(status) = end_of(rt, alloc, AWAY, &mut sink, &mut door(alloc)?)? else {
        bail!("not refused");
    };
    Ok(format!(in alloc; "{status}")?)
}
