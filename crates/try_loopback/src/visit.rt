//! Viewers at one session, over TCP.

use crate::link::Link;
use crate::stage::{Stage, port_of};
use anyhow::{Context, Result, bail};
use std::alloc::Global;
use std::time::Duration;
use std::{str, thread};
use try_services::{are_alike, colours};

// The places of the viewers.
const OWNER: usize = 0;

const OTHER: usize = 1;

const LOOKER: usize = 2;

// How often it is looked whether the session is gone.
const LOOKS: u64 = 200;

/// The ID of a session, and the viewers that stay to its end: the owner, another who types, and one who only looks.
#[derive(Drop)]
struct Party {
    id: String,
    viewers: Vec<Link>,
}

/// What the viewers, the host and the recorder of a session meet, in turn.
pub fn visit(rt: &HostRuntime, stage: &Stage) -> Result<()> {
    let mut party = Party {
        id: String::new(rt.alloc()),
        viewers: Vec::new(rt.alloc()),
    };
    begin(rt, stage, &mut party)?;
    meet(rt, stage, &mut party)
}

// The owner begins the session, and two more join it.
fn begin(rt: &HostRuntime, stage: &Stage, party: &mut Party) -> Result<()> {
    let mut owner = greeted(rt, stage)?;
    party.id = owner.ready(rt.alloc())?;
    party.viewers.push(owner)?;
    println!(rt; "the owner is ready")?;
    for read_only in ["0.", "4.true"] {
        let viewer = joined(rt, stage, &party.id, read_only)?;
        party.viewers.push(viewer)?;
    }
    println!(rt; "two more are ready")?;
    Ok(())
}

// A client that has sent what begins a session whose joiners may type.
fn greeted(rt: &HostRuntime, stage: &Stage) -> Result<Link> {
    let text = greeting(rt.alloc(), port_of(&stage.hosts)?)?;
    let mut owner = Link::dial(rt, stage.service)?;
    owner.say(text.as_bytes())?;
    Ok(owner)
}

fn greeting(alloc: Global, host: u16) -> Result<String> {
    let port = format!(in alloc; "{host}")?;
    let digits = port.len();
    Ok(format!(in alloc;
        "6.select,6.telnet;4.size,3.640,3.384,2.96;7.connect,13.VERSION_1_1_0,9.localhost,{digits}.{port},0.,0.,7.control;"
    )?)
}

// A viewer that has joined the session.
fn joined(rt: &HostRuntime, stage: &Stage, id: &str, read_only: &str) -> Result<Link> {
    let mut viewer = asked(rt, stage, id, "13.VERSION_1_1_0", read_only)?;
    viewer.ready(rt.alloc())?;
    Ok(viewer)
}

// A client that has asked to join the session.
fn asked(
    rt: &HostRuntime,
    stage: &Stage,
    id: &str,
    version: &str,
    read_only: &str,
) -> Result<Link> {
    let text = format!(in rt.alloc(); "6.select,37.{id};7.connect,{version},{read_only};")?;
    let mut client = Link::dial(rt, stage.service)?;
    client.say(text.as_bytes())?;
    Ok(client)
}

fn meet(rt: &HostRuntime, stage: &Stage, party: &mut Party) -> Result<()> {
    let mut host = Link::accept(rt.alloc(), &stage.hosts)?;
    types(rt, stage, party, &mut host)?;
    ends(rt, party, &mut host)?;
    leaves(rt, stage, &party.id)?;
    is_recorded(rt, stage, party)
}

// All are shown what two of them type, and not what the third does; and they are when a fourth has gone away.
fn types(rt: &HostRuntime, stage: &Stage, party: &mut Party, host: &mut Link) -> Result<()> {
    echo(party, host, OWNER, b"2.65", b"A", b"4.sync,1.2;")?;
    type_key(party, LOOKER, b"2.99")?;
    echo(party, host, OTHER, b"2.98", b"b", b"4.sync,1.3;")?;
    println!(rt; "all three were shown what two typed")?;
    go_away(rt, stage, &party.id)?;
    echo(party, host, OWNER, b"3.100", b"d", b"4.sync,1.4;")?;
    println!(rt; "and so they were when one more had gone away in the middle of a frame")?;
    Ok(())
}

// A viewer joins, is sent the beginning of the picture, sends the beginning of a key, and goes away.
fn go_away(rt: &HostRuntime, stage: &Stage, id: &str) -> Result<()> {
    let mut viewer = joined(rt, stage, id, "0.")?;
    viewer.await_text(b"4.size,")?;
    viewer.say(b"3.key,2.9")
}

// A viewer presses a key, the host sends back what it is sent, and all are shown the frame of this sync.
fn echo(
    party: &mut Party,
    host: &mut Link,
    viewer: usize,
    keysym: &[u8],
    sent: &[u8],
    sync: &[u8],
) -> Result<()> {
    type_key(party, viewer, keysym)?;
    host.await_text(sent)?;
    host.say(sent)?;
    for viewer in party.viewers.iter_mut() {
        viewer.await_text(sync)?;
    }
    Ok(())
}

// Presses the key and lets it go.
fn type_key(party: &mut Party, viewer: usize, keysym: &[u8]) -> Result<()> {
    let viewer = party.viewers.get_mut(viewer).context("no such viewer")?;
    for end in [b",1.1;".as_slice(), b",1.0;".as_slice()] {
        viewer.say(b"3.key,")?;
        viewer.say(keysym)?;
        viewer.say(end)?;
    }
    Ok(())
}

// The host sends no more, and then waits silently, as the viewers do, for the end of its connection.
fn ends(rt: &HostRuntime, party: &mut Party, host: &mut Link) -> Result<()> {
    type_key(party, OWNER, b"3.113")?;
    host.await_text(b"q")?;
    host.say(b"q")?;
    host.end()?;
    for viewer in party.viewers.iter_mut() {
        if !viewer.all()?.ends_with(b"10.disconnect;") {
            bail!("the end wasn't told");
        }
    }
    println!(rt; "all three were told the end, and their connections ended")?;
    let heard = str::from_utf8(host.all()?).ok().context("no text")?;
    println!(rt; "the host heard {heard}, and its connection ended")?;
    Ok(())
}

// The session leaves the table at an accept soon after its end.
fn leaves(rt: &HostRuntime, stage: &Stage, id: &str) -> Result<()> {
    for _ in 0..LOOKS {
        let mut client = asked(rt, stage, id, "1.x", "1.x")?;
        if client.all()? == b"5.error,18.resource not found,3.516;".as_slice() {
            println!(rt; "the session has left the table")?;
            return Ok(());
        }
        thread::sleep(rt, Duration::from_millis(100));
    }
    bail!("the session is still in the table")
}

// What the recorder was sent shows what the owner was shown last.
fn is_recorded(rt: &HostRuntime, stage: &Stage, party: &Party) -> Result<()> {
    let owner = party.viewers.first().context("no owner")?;
    let mut recorder = Link::accept(rt.alloc(), &stage.recorders)?;
    tell_recording(rt, recorder.all()?, owner.heard())
}

fn tell_recording(rt: &HostRuntime, recording: &[u8], shown: &[u8]) -> Result<()> {
    println!(rt; "| {}", colours(rt.alloc(), recording)?)?;
    let alike = are_alike(rt.alloc(), recording, shown)?;
    println!(rt; "the recording shows the last screen: {alike}")?;
    Ok(())
}
