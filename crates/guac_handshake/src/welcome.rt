use gate_model::{Bytes, Text};

/// A viewer that was let in.
#[derive(Drop)]
pub struct Welcome<P> {
    /// The session's ID, as clients are told it.
    pub id: Text,
    /// The viewer's place.
    pub place: P,
    /// What the viewer is given first.
    pub first: Bytes,
}

/// What became of the recorder of a session that begins (this project's own).
#[derive(Drop)]
pub enum Recorder<C> {
    /// None is wanted.
    Unwanted,
    /// It couldn't be had, and the session goes on without.
    Failed,
    /// Its job waits to be started.
    Ready(C),
}

/// A session that can be joined, whose jobs wait to be started.
#[derive(Drop)]
pub struct Begun<P, A, B, C> {
    /// The place of its first viewer.
    pub welcome: Welcome<P>,
    /// The job that feeds the session.
    pub pump: A,
    /// The job that sends to its host.
    pub sender: B,
    /// Its recorder.
    pub recorder: Recorder<C>,
}
