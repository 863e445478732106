//! One link against bytes that were written by hand, and who may open one.

use crate::WsLink;
use crate::origin::{is_allowed, offers_guacamole};
use gate_outside::{MemSink, MemSource, Sink, Source};
use std::alloc::Global;
use std::sync::Wait;
use std::test::Fail;
use ws_tunnel::{Got, LinkFailed, Messages};

// A handshake of a page, and the key of RFC 6455, section 1.3.
const HEAD: &[u8] =
    b"GET /websocket-tunnel HTTP/1.1\r\nHost: gate.example\r\nUpgrade: websocket\r\nConnection: Upgrade\r\nSec-WebSocket-Key: dGhlIHNhbXBsZSBub25jZQ==\r\nSec-WebSocket-Version: 13\r\nSec-WebSocket-Protocol: other, guacamole\r\nOrigin: https://gate.example\r\n\r\n";

// A text message, a ping, and a text message in two fragments (RFC 6455, section 5.7), with the mask that stands there;
// and a close frame.
const FRAMES: &[u8] = &[
    0x81, 0x85, 0x37, 0xfa, 0x21, 0x3d, 0x7f, 0x9f, 0x4d, 0x51, 0x58, 0x89, 0x85, 0x37, 0xfa, 0x21,
    0x3d, 0x7f, 0x9f, 0x4d, 0x51, 0x58, 0x01, 0x83, 0x37, 0xfa, 0x21, 0x3d, 0x7f, 0x9f, 0x4d, 0x80,
    0x82, 0x37, 0xfa, 0x21, 0x3d, 0x5b, 0x95, 0x88, 0x82, 0x37, 0xfa, 0x21, 0x3d, 0x34, 0x12,
];

// The server's pong and text message, which aren't masked (RFC 6455, section 5.7).
const PONG: &[u8] = &[0x8a, 0x05, 0x48, 0x65, 0x6c, 0x6c, 0x6f];

const HELLO: &[u8] = &[0x81, 0x05, 0x48, 0x65, 0x6c, 0x6c, 0x6f];

// Sends each message back, and ends as the link does. It appends what came, a bar behind each.
fn send_back<R: Wait, S: Source, K: Sink>(
    rt: &R,
    link: &mut WsLink<'_, S, K>,
    came: &mut Vec<u8>,
) -> Result<(), LinkFailed> {
    for _ in 0..9u8 {
        let start = came.len();
        match link.receive(rt, came)? {
            Got::Message => {
                let text = came.get(start..).unwrap_or(&[]);
                link.send(rt, text)?;
                if came.push(b'|').is_err() {
                    return Err(LinkFailed::NoMemory);
                }
            }
            Got::Closed => return Ok(()),
        }
    }
    Ok(())
}

// A link over a connection of which this head was read and these frames are left: what came, and what was sent.
fn exchange<R: Wait>(
    rt: &R,
    alloc: Global,
    head: &[u8],
    frames: &[u8],
) -> Result<(Vec<u8>, Result<(), LinkFailed>, bool, MemSink), Fail> {
    let mut source = MemSource::new(frames.to_vec(alloc)?, 7, Vec::new(alloc));
    let mut sink = MemSink::new(alloc, 4096, 4096, Vec::new(alloc))
        .ok()
        .ok_or("no memory")?;
    let mut came = Vec::new(alloc);
    let mut link = WsLink::new(alloc, head.to_vec(alloc)?, &mut source, &mut sink);
    let end = send_back(rt, &mut link, &mut came);
    link.close();
    let silent = link.is_silent();
    drop(link);
    Ok((came, end, silent, sink))
}

fn has(text: &[u8], part: &[u8]) -> bool {
    for at in 0..text.len() {
        if text[at..].starts_with(part) {
            return true;
        }
    }
    false
}

#[test]
fn messages_come_and_go(rt: HostRuntime) -> Result<(), Fail> {
    let (came, end, silent, sink) = exchange(&rt, rt.alloc(), HEAD, FRAMES)?;
    assert_eq!(rt; came.as_slice(), b"Hello|Hello|".as_slice());
    assert!(rt; end.is_ok() && !silent);
    let sent = sink.written();
    assert!(rt; sent.starts_with(b"HTTP/1.1 101 Switching Protocols\r\n"));
    for part in [
        b"sec-websocket-accept: s3pPLMBiTxaQ9kYGzzhZRbK+xOo=\r\n".as_slice(),
        b"sec-websocket-protocol: guacamole\r\n".as_slice(),
        PONG,
        HELLO,
    ] {
        assert!(rt; has(sent, part), "{part:?}");
    }
    Ok(())
}

#[test]
fn a_page_of_another_origin_is_refused(rt: HostRuntime) -> Result<(), Fail> {
    let head =
        b"GET / HTTP/1.1\r\nHost: gate.example\r\nUpgrade: websocket\r\nConnection: Upgrade\r\nSec-WebSocket-Key: dGhlIHNhbXBsZSBub25jZQ==\r\nSec-WebSocket-Version: 13\r\nOrigin: https://other.example\r\n\r\n";
    let (came, end, silent, sink) = exchange(&rt, rt.alloc(), head, FRAMES)?;
    assert!(rt; came.is_empty() && end == Err(LinkFailed::Failed) && !silent);
    assert!(rt; sink.written().starts_with(b"HTTP/1.1 403 Forbidden\r\n"));
    assert!(rt; !has(sink.written(), b"upgrade"));
    Ok(())
}

#[test]
fn a_handshake_that_is_none_is_silent(rt: HostRuntime) -> Result<(), Fail> {
    let head = b"GET /websocket-tunnel HTTP/1.1\r\nHost: gate.example\r\n\r\n";
    let (came, end, silent, sink) = exchange(&rt, rt.alloc(), head, FRAMES)?;
    assert!(rt; came.is_empty() && end == Err(LinkFailed::Failed) && silent);
    assert!(rt; sink.written().is_empty());
    Ok(())
}

#[test]
fn pages_of_the_same_host_and_who_is_no_page_are_let_in(rt: HostRuntime) -> Result<(), Fail> {
    let host = Some(b"gate.example:8443".as_slice());
    for (origin, host, allowed) in [
        (None, host, true),
        (None, None, true),
        (Some(b"https://gate.example:8443".as_slice()), host, true),
        (Some(b"https://GATE.example:8443".as_slice()), host, true),
        (Some(b"https://gate.example".as_slice()), host, false),
        (Some(b"https://gate.example:8443".as_slice()), None, false),
        (Some(b"null".as_slice()), host, false),
        (Some(b"".as_slice()), Some(b"".as_slice()), false),
    ] {
        assert_eq!(rt; is_allowed(origin, host), allowed);
    }
    for (names, offered) in [
        (b"guacamole".as_slice(), true),
        (b"chat, guacamole".as_slice(), true),
        (b"chat".as_slice(), false),
        (b"guacamoles".as_slice(), false),
        (b"".as_slice(), false),
    ] {
        assert_eq!(rt; offers_guacamole(names), offered);
    }
    Ok(())
}
