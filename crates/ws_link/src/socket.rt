//! Messages over a socket of `tungstenite`.

ghost use Rattle.ws_link.specs.Reads.{Appends, Puts};

use crate::origin::SameOrigin;
use std::alloc::Global;
use std::io::{Read, Write};
use std::str;
use tungstenite::handshake::server::start;
use tungstenite::{
    CloseCode, CloseFrame, Error, HandshakeError, Message, NoMask, Utf8Bytes, WebSocket,
    WebSocketConfig,
};
use ws_tunnel::{Got, LinkFailed};

// The most bytes of a message, and of a frame: as many as of a request's body.
const MOST_BYTES: usize = 1 << 20;

// How many bytes are read at once.
const PIECE: usize = 4096;

// How many messages are read in one call: one that is text or binary, behind up to 1,000 that are neither.
const MOST_READ: u32 = 1001;

fn limits() -> WebSocketConfig {
    WebSocketConfig::default()
        .read_buffer_size(PIECE)
        .write_buffer_size(0)
        .max_message_size(Some(MOST_BYTES))
        .max_frame_size(Some(MOST_BYTES))
}

// Why it failed.
fn failed(error: Error) -> LinkFailed {
    match error {
        Error::OutOfMemory => LinkFailed::NoMemory,
        _ => LinkFailed::Failed,
    }
}

/// Shakes hands. A handshake that fails was answered only where its origin was refused; else it is silent.
pub(crate) fn accepted<T: Read + Write + Drop>(
    alloc: Global,
    stream: T,
    silent: &mut bool,
) -> Result<WebSocket<T, NoMask>, LinkFailed> {
    match start(alloc, stream, SameOrigin { alloc }, Some(limits())).handshake() {
        Ok(socket) => Ok(socket),
        Err(HandshakeError::Failure(error)) => {
            *silent = !matches!(error, Error::Refused(_));
            Err(failed(error))
        }
        Err(HandshakeError::Interrupted(_)) => Err(LinkFailed::Failed),
    }
}

// Appends a text or binary message, and answers whether it is one.
fn put(message: &Message, into: &mut Vec<u8>) -> Result<bool, LinkFailed>
    ensures { Puts into.old.items into.new.items result }
{
    let bytes = match message {
        Message::Text(text) => text.as_str().as_bytes(),
        Message::Binary(bytes) => bytes.as_slice(),
        _ => return Ok(false),
    };
    match into.extend_from_slice(bytes) {
        Ok(()) => Ok(true),
        Err(_) => Err(LinkFailed::NoMemory),
    }
}

/// Appends the next text or binary message, past up to 1,000 others. The socket answers pings by itself.
pub(crate) fn next<T: Read + Write + Drop>(
    socket: &mut WebSocket<T, NoMask>,
    into: &mut Vec<u8>,
) -> Result<Got, LinkFailed>
    ensures { Appends into.old.items into.new.items result }
{
    for _ in 0..MOST_READ {
        match socket.read() {
            Ok(message) => match put(&message, into) {
                Ok(true) => return Ok(Got::Message),
                Ok(false) => {}
                Err(refused) => return Err(refused),
            },
            Err(Error::ConnectionClosed) => return Ok(Got::Closed),
            Err(error) => return Err(failed(error)),
        }
    }
    Err(LinkFailed::Failed)
}

// A text where it is one, else bytes.
fn message_of(alloc: Global, text: &[u8]) -> Result<Message, LinkFailed> {
    let made = match str::from_utf8(text) {
        Ok(words) => Message::text(alloc, words),
        Err(_) => Message::binary(alloc, text),
    };
    match made {
        Ok(message) => Ok(message),
        Err(_) => Err(LinkFailed::NoMemory),
    }
}

/// Sends a text.
pub(crate) fn send<T: Read + Write + Drop>(
    alloc: Global,
    socket: &mut WebSocket<T, NoMask>,
    text: &[u8],
) -> Result<(), LinkFailed> {
    let message = message_of(alloc, text)?;
    match socket.send(message) {
        Ok(()) => Ok(()),
        Err(error) => Err(failed(error)),
    }
}

/// Sends a close frame, as well as that goes.
pub(crate) fn part_with<T: Read + Write + Drop>(alloc: Global, socket: &mut WebSocket<T, NoMask>) {
    if let Ok(reason) = Utf8Bytes::copy_from_str(alloc, "") {
        let _ = socket.close(Some(CloseFrame {
            code: CloseCode::Normal,
            reason,
        }));
    }
}
