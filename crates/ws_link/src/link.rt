//! The link.

ghost use Rattle.std.specs.Prelude.{◌≡◌};
ghost use Rattle.gate_outside.specs.Edge.{CountsFault};
ghost use Rattle.ws_link.specs.Reads.{Appends};
ghost use Rattle.ws_tunnel.specs.declared.got.LinkFailed.TheVariants.{Failed};

use crate::ends::{Stream, stream};
use crate::socket::{accepted, next, part_with, send};
use gate_outside::{Sink, Source};
use std::alloc::Global;
use std::mem;
use std::sync::Wait;
use tungstenite::{NoMask, WebSocket};
use ws_tunnel::{Got, LinkFailed, Messages};

/// A link of messages over a connection (RFC 6455). Its first `receive` shakes hands, which only a page of the same
/// origin may do, and who is no page. A text or binary message may have 1,048,576 bytes; up to 1,000 others are passed
/// over in one call. It counts the calls that failed.
#[derive(Drop)]
pub struct WsLink<'a, S, K> {
    alloc: Global,
    // Until the handshake.
    stream: Option<Stream<'a, S, K>>,
    // From then on.
    socket: Option<WebSocket<Stream<'a, S, K>, NoMask>>,
    faults: u64,
    // The handshake failed, and nothing was answered.
    silent: bool,
}

impl<'a, S: Source, K: Sink> WsLink<'a, S, K> {
    /// A link over a connection of which these bytes were read.
    pub fn new(
        alloc: Global,
        first: Vec<u8>,
        source: &'a mut S,
        sink: &'a mut K,
    ) -> WsLink<'a, S, K> {
        WsLink {
            alloc,
            stream: Some(stream(first, source, sink)),
            socket: None,
            faults: 0,
            silent: false,
        }
    }

    /// Sends a close frame, as well as that goes.
    pub fn close(&mut self) {
        let alloc = self.alloc;
        if let Some(socket) = &mut self.socket {
            part_with(alloc, socket);
        }
    }

    /// Whether a handshake failed without an answer.
    pub fn is_silent(&self) -> bool {
        self.silent
    }

    // Shakes hands, if that wasn't done.
    fn open(&mut self) -> Result<(), LinkFailed>
        ensures count { self.new.faults ≡ self.old.faults }
    {
        if let Some(stream) = self.stream.take() {
            let socket = accepted(self.alloc, stream, &mut self.silent)?;
            let none = mem::replace(&mut self.socket, Some(socket));
            drop(none);
        }
        Ok(())
    }

    // The next message.
    fn take(&mut self, into: &mut Vec<u8>) -> Result<Got, LinkFailed>
        ensures appends { Appends into.old.items into.new.items result }
        ensures count { self.new.faults ≡ self.old.faults }
    {
        self.open()?;
        match &mut self.socket {
            Some(socket) => next(socket, into),
            None => Err(LinkFailed::Failed),
        }
    }

    // Sends a message.
    fn put(&mut self, text: &[u8]) -> Result<(), LinkFailed>
        ensures count { self.new.faults ≡ self.old.faults }
    {
        let alloc = self.alloc;
        match &mut self.socket {
            Some(socket) => send(alloc, socket, text),
            None => Err(LinkFailed::Failed),
        }
    }

    // Counts a call that failed.
    fn count(&mut self, failed: LinkFailed)
        ensures { CountsFault (failed ≡ Failed) self.old.faults self.new.faults }
    {
        match failed {
            LinkFailed::Failed => self.faults = self.faults.saturating_add(1),
            LinkFailed::NoMemory => {}
        }
    }
}

impl<'a, S: Source, K: Sink> Messages for WsLink<'a, S, K> {
    ghost use Rattle.std.specs.Prelude.{None};

    ghost left = { λ _. None };

    ghost sent = { λ _. None };

    ghost faults = { λ s. s.faults };

    fn receive<R: Wait>(&mut self, _rt: &R, into: &mut Vec<u8>) -> Result<Got, LinkFailed> {
        let got = self.take(into);
        if let Err(failed) = got {
            self.count(failed);
        }
        got
    }

    fn send<R: Wait>(&mut self, _rt: &R, text: &[u8]) -> Result<(), LinkFailed> {
        let done = self.put(text);
        if let Err(failed) = done {
            self.count(failed);
        }
        done
    }
}
