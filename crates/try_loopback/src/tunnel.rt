//! A session over HTTP requests alone.

use crate::link::{Link, count};
use crate::stage::{Stage, port_of};
use anyhow::{Context, Result, bail};
use std::str;

// The most reads until an echo comes.
const READS: u64 = 1_000;

// After how many milliseconds without a byte a client looks up, and how often.
const PAUSE: u64 = 100;

const PAUSES: u64 = 600;

/// A tunnel is opened, types a key, reads its echo and leaves; then it isn't there any more. The last key ends the
/// host.
pub fn tunnel(rt: &HostRuntime, stage: &Stage) -> Result<()> {
    let id = connect(rt, stage)?;
    use_tunnel(rt, stage, &id)
}

fn use_tunnel(rt: &HostRuntime, stage: &Stage, id: &str) -> Result<()> {
    let mut host = Link::accept(rt.alloc(), &stage.hosts)?;
    types(rt, stage, id, &mut host)?;
    leaves(rt, stage, id, &mut host)
}

// Opens a tunnel: its ID.
fn connect(rt: &HostRuntime, stage: &Stage) -> Result<String> {
    let opened = open(rt, stage)?;
    println!(rt; "a connect: {}", first_line(&opened))?;
    Ok(String::from_str(rt.alloc(), body_of(&opened)?)?)
}

fn open(rt: &HostRuntime, stage: &Stage) -> Result<String> {
    let port = port_of(&stage.hosts)?;
    let form = format!(in rt.alloc(); "hostname=localhost&port={port}")?;
    ask(rt, stage, "POST /tunnel?connect", &form)
}

fn types(rt: &HostRuntime, stage: &Stage, id: &str, host: &mut Link) -> Result<()> {
    tell_write(rt, stage, id, "a key", "3.key,2.97,1.1;")?;
    host.await_text(b"a")?;
    host.say(b"a")?;
    let heard = read_to(rt, stage, id, host, "4.sync,1.2;")?;
    let first = count(heard.as_bytes(), b"4.sync,1.1;");
    let echo = count(heard.as_bytes(), b"4.sync,1.2;");
    println!(rt; "what joining gave: {first} time, its echo: {echo} time")?;
    Ok(())
}

fn leaves(rt: &HostRuntime, stage: &Stage, id: &str, host: &mut Link) -> Result<()> {
    let last = "3.key,3.113,1.1;10.disconnect;";
    tell_write(rt, stage, id, "a last key and disconnect", last)?;
    host.await_text(b"q")?;
    host.end()?;
    let heard = str::from_utf8(host.all()?).ok().context("no text")?;
    println!(rt; "the host heard {heard}, and its connection ended")?;
    tell_gone(rt, stage, id)
}

fn tell_write(rt: &HostRuntime, stage: &Stage, id: &str, title: &str, body: &str) -> Result<()> {
    let written = write(rt, stage, id, body)?;
    println!(rt; "{title}: {}", first_line(&written))?;
    Ok(())
}

// A read behind the disconnect.
fn tell_gone(rt: &HostRuntime, stage: &Stage, id: &str) -> Result<()> {
    let gone = read(rt, stage, id)?;
    println!(rt; "a read behind it: {}", first_line(&gone))?;
    let told = gone.contains("\r\nGuacamole-Status-Code: 516\r\n");
    println!(rt; "| with code 516: {told}")?;
    Ok(())
}

// Reads, two reads at once, until the text has come: all that came.
fn read_to(
    rt: &HostRuntime,
    stage: &Stage,
    id: &str,
    host: &mut Link,
    text: &str,
) -> Result<String> {
    let mut heard = String::new(rt.alloc());
    for _ in 0..READS {
        read_twice(rt, stage, id, host, &mut heard)?;
        if heard.contains(text) {
            return Ok(heard);
        }
    }
    bail!("the echo doesn't come")
}

fn read_twice(
    rt: &HostRuntime,
    stage: &Stage,
    id: &str,
    host: &mut Link,
    heard: &mut String,
) -> Result<()> {
    let mut first = reading(rt, stage, id)?;
    let mut second = reading(rt, stage, id)?;
    hear(rt, host, &mut first, heard)?;
    hear(rt, host, &mut second, heard)
}

// Adds the body of the response that comes on a connection. A read that finds nothing waits until there is something
// to give, so the host rings the bell of the terminal in each pause.
fn hear(rt: &HostRuntime, host: &mut Link, client: &mut Link, heard: &mut String) -> Result<()> {
    client.pause_after(PAUSE)?;
    for _ in 0..PAUSES {
        if client.has_ended() {
            return take_body(rt, client, heard);
        }
        host.say(b"\x07")?;
    }
    bail!("a read isn't answered")
}

fn take_body(rt: &HostRuntime, client: &mut Link, heard: &mut String) -> Result<()> {
    let answer = answer(rt, client)?;
    heard.push_str(body_of(&answer)?)?;
    Ok(())
}

// The response to a write of the tunnel.
fn write(rt: &HostRuntime, stage: &Stage, id: &str, body: &str) -> Result<String> {
    let request = format!(in rt.alloc(); "POST /tunnel?write:{id}")?;
    ask(rt, stage, &request, body)
}

// The response to a read of the tunnel.
fn read(rt: &HostRuntime, stage: &Stage, id: &str) -> Result<String> {
    let mut client = reading(rt, stage, id)?;
    answer(rt, &mut client)
}

// A connection on which a read of the tunnel was sent.
fn reading(rt: &HostRuntime, stage: &Stage, id: &str) -> Result<Link> {
    let request = format!(in rt.alloc(); "GET /tunnel?read:{id}")?;
    sent(rt, stage, &request, "")
}

// The response to a request.
fn ask(rt: &HostRuntime, stage: &Stage, request: &str, body: &str) -> Result<String> {
    let mut client = sent(rt, stage, request, body)?;
    answer(rt, &mut client)
}

// A connection on which a request was sent.
fn sent(rt: &HostRuntime, stage: &Stage, request: &str, body: &str) -> Result<Link> {
    let length = body.len();
    let text = format!(in rt.alloc();
        "{request} HTTP/1.1\r\nContent-Length: {length}\r\n\r\n{body}"
    )?;
    let mut client = Link::dial(rt, stage.service)?;
    client.say(text.as_bytes())?;
    Ok(client)
}

// The whole response that came on a connection.
fn answer(rt: &HostRuntime, client: &mut Link) -> Result<String> {
    let text = str::from_utf8(client.all()?).ok().context("no text")?;
    Ok(String::from_str(rt.alloc(), text)?)
}

fn first_line(answer: &str) -> &str {
    match answer.split_once("\r\n") {
        Some((line, _)) => line,
        None => answer,
    }
}

fn body_of(answer: &str) -> Result<&str> {
    let (_, body) = answer.split_once("\r\n\r\n").context("no body")?;
    Ok(body)
}
