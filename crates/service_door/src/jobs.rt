//! The two jobs of a session: one feeds it what its host sends, the other sends what it has for its host.

use crate::causes::cause_at;
use crate::marks::SharedMarks;
use gate_model::Cause;
use gate_outside::{Bell, Clock, Sink, Source};
use guac_handshake::Job;
use session_link::{PumpEnd, pump, sender};
use shared_desk::{LinkPass, SenderPass};
use std::alloc::Global;
use std::sync::Wait;

/// Feeds a session what its host sends, by `session_link::pump`. Where that ended for want of memory the
/// session is closed with Stopped.
#[derive(Drop)]
pub struct PumpJob<S, C, B> {
    pub(crate) alloc: Global,
    pub(crate) pass: LinkPass,
    pub(crate) source: S,
    pub(crate) clock: C,
    pub(crate) bell: B,
    pub(crate) marks: SharedMarks,
}

impl<S: Source + Send + 'static, C: Clock + Send + 'static, B: Bell + Send + 'static> Job
    for PumpJob<S, C, B> {
    fn run<R: Wait>(self, rt: &R) {
        let PumpJob {
            alloc,
            mut pass,
            mut source,
            mut clock,
            bell,
            marks,
        } = self;
        let end = pump(rt, alloc, &mut pass, &mut source, &mut clock, &bell);
        if end == PumpEnd::NoMemory {
            stop(rt, &mut pass, &bell);
        }
        marks.closed_for(cause_at(end));
        marks.pump_ended(pass);
    }
}

// Closes the session with Stopped where it is open, and then rings.
fn stop<R: Wait, B: Bell>(rt: &R, pass: &mut LinkPass, bell: &B) {
    if pass.close(rt, Cause::Stopped).is_ok() {
        bell.ring_all(pass.spots());
    }
}

/// Sends what a session has for its host, by `session_link::sender`.
#[derive(Drop)]
pub struct SenderJob<K, B> {
    pub(crate) pass: SenderPass,
    pub(crate) sink: K,
    pub(crate) bell: B,
    pub(crate) marks: SharedMarks,
}

impl<K: Sink + Send + 'static, B: Bell + Send + 'static> Job for SenderJob<K, B> {
    fn run<R: Wait>(self, rt: &R) {
        let SenderJob {
            mut pass,
            mut sink,
            bell,
            marks,
        } = self;
        let _end = sender(rt, &mut pass, &mut sink, &bell);
        marks.sender_ended(pass);
    }
}
