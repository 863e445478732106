//! The ends of a link that is counted.

use crate::Traffic;
use gate_outside::{Failed, Sink, Source};

/// A source that counts what is read of a host, where it is one of a session's host. It tells what the inner one tells.
#[derive(Drop)]
pub struct TrafficSource<S> {
    source: S,
    traffic: Option<Traffic>,
}

impl<S: Source> TrafficSource<S> {
    pub(crate) fn new(source: S, traffic: Option<Traffic>) -> TrafficSource<S> {
        TrafficSource { source, traffic }
    }
}

impl<S: Source> Source for TrafficSource<S> {
    ghost left = { λ s. S.left s.source };

    ghost faults = { λ s. S.faults s.source };

    fn read(&mut self, into: &mut [u8]) -> Result<usize, Failed> {
        let count = self.source.read(into)?;
        match &self.traffic {
            Some(traffic) if count > 0 => traffic.count_in(count),
            _ => {}
        }
        Ok(count)
    }
}

/// A sink that counts what is written to a host, where it is one of a session's host. It tells what the inner one tells.
#[derive(Drop)]
pub struct TrafficSink<K> {
    sink: K,
    traffic: Option<Traffic>,
}

impl<K: Sink> TrafficSink<K> {
    pub(crate) fn new(sink: K, traffic: Option<Traffic>) -> TrafficSink<K> {
        TrafficSink { sink, traffic }
    }
}

impl<K: Sink> Sink for TrafficSink<K> {
    ghost written = { λ k. K.written k.sink };

    ghost faults = { λ k. K.faults k.sink };

    fn write(&mut self, piece: &[u8]) -> Result<usize, Failed> {
        let count = self.sink.write(piece)?;
        if let Some(traffic) = &self.traffic {
            traffic.count_out(count);
        }
        Ok(count)
    }

    fn finish(&mut self) {
        self.sink.finish();
    }
}
