//! A link in memory.

ghost use Rattle.std.specs.Prelude.{◌≡◌, ◌≤◌, []};
ghost use Rattle.ws_tunnel.specs.MemLinks.{link_called, link_fails};

use crate::{Got, LinkFailed, Messages};
use gate_model::Bytes;
use std::alloc::Global;
use std::marker::Model;
use std::sync::Wait;

/// A link in memory: it gives its messages in order and then says that it was closed, and keeps what is sent. It fails
/// at listed calls. Contracts see it as a `MemLink`.
#[derive(Drop)]
pub struct MemMessages {
    messages: Vec<Bytes>,
    next: usize,
    sent: Vec<Bytes>,
    fail: Vec<u64>,
    calls: u64,
    faults: u64,
    alloc: Global,
}

impl Model for MemMessages {
    ghost use Rattle.std.specs.Prelude.{◌≤◌, drop, length};
    ghost use Rattle.ws_tunnel.specs.MemLinks.{MemLink};

    ghost Value = { MemLink };

    ghost view = { λ s. record { left = drop s.next s.messages.items; sent = s.sent.items; fail = s.fail.items; calls = s.calls; faults = s.faults } };

    ghost invariant = { λ s. s.next ≤ length s.messages.items };
}

impl MemMessages {
    /// A link that gives these messages, and fails at the calls whose numbers, counted from 1 over both kinds, stand in
    /// `fail`.
    pub fn new(alloc: Global, messages: Vec<Bytes>, fail: Vec<u64>) -> MemMessages
        ensures { result ≡ record { left = messages.items; sent = []; fail = fail.items; calls = 0; faults = 0 } }
    {
        MemMessages {
            messages,
            next: 0,
            sent: Vec::new(alloc),
            fail,
            calls: 0,
            faults: 0,
            alloc,
        }
    }

    /// The messages that were sent, the oldest first.
    pub fn sent(&self) -> &[Bytes]
        ensures { result.now ≡ self.now.sent }
    {
        &self.sent
    }

    // Counts a call, and says whether it fails.
    fn fails(&mut self) -> bool
        ensures called { self.new ≡ link_called self.old }
        ensures listed { result ≡ link_fails self.old }
        ensures later { self.old.faults ≤ self.new.faults }
    {
        self.calls = self.calls.saturating_add(1);
        let listed = self.fail.contains(&self.calls);
        if listed {
            self.faults = self.faults.saturating_add(1);
        }
        listed
    }
}

impl Messages for MemMessages {
    ghost use Rattle.std.specs.Prelude.{◌↔◌, Err, IsTrue, Some};
    ghost use Rattle.gate_outside.specs.Edge.{CountsFault};
    ghost use Rattle.ws_tunnel.specs.Links.{HasReceived, HasSent};
    ghost use Rattle.ws_tunnel.specs.declared.got.LinkFailed.TheVariants.{Failed};

    ghost left = { λ s. Some s.left };

    ghost sent = { λ s. Some s.sent };

    ghost faults = { λ s. s.faults };

    /// Fails exactly at a listed call.
    fn receive<R: Wait>(&mut self, _rt: &R, into: &mut Vec<u8>) -> Result<Got, LinkFailed>
        ensures fails { (result ≡ Err Failed) ↔ IsTrue (link_fails self.old) }

        // The trait's clauses.
        ensures received { HasReceived (Some self.old.left) (Some self.new.left) into.old.items into.new.items result }
        ensures sent { Some self.new.sent ≡ Some self.old.sent }
        ensures faults { CountsFault (result ≡ Err Failed) self.old.faults self.new.faults }
    {
        if self.fails() {
            return Err(LinkFailed::Failed);
        }
        match self.messages.get(self.next) {
            Some(message) => match into.extend_from_slice(message.as_slice()) {
                Ok(()) => {
                    self.next += 1;
                    Ok(Got::Message)
                }
                Err(_) => Err(LinkFailed::NoMemory),
            },
            None => Ok(Got::Closed),
        }
    }

    /// Fails exactly at a listed call.
    fn send<R: Wait>(&mut self, _rt: &R, text: &[u8]) -> Result<(), LinkFailed>
        ensures fails { (result ≡ Err Failed) ↔ IsTrue (link_fails self.old) }

        // The trait's clauses.
        ensures sent { HasSent (Some self.old.sent) (Some self.new.sent) text.now result }
        ensures left { Some self.new.left ≡ Some self.old.left }
        ensures faults { CountsFault (result ≡ Err Failed) self.old.faults self.new.faults }
    {
        if self.fails() {
            return Err(LinkFailed::Failed);
        }
        let Ok(copy) = Vec::from_slice(self.alloc, text) else {
            return Err(LinkFailed::NoMemory);
        };
        match self.sent.push(Bytes::of(copy)) {
            Ok(()) => Ok(()),
            Err(_) => Err(LinkFailed::NoMemory),
        }
    }
}
