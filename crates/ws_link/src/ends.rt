//! The two ends of a connection, as the socket reads and writes them.

ghost use Rattle.std.specs.Prelude.{◌≤◌, length};

use gate_outside::{Failed, Sink, Source};
use std::io;
use std::io::{ErrorKind, Read, Write};
use tungstenite::Duplex;

/// Bytes that were read before, and then what the source gives.
#[derive(Drop)]
pub(crate) struct Reading<'a, S> {
    first: Vec<u8>,
    at: usize,
    source: &'a mut S,
    ghost within: { at ≤ length first.items },
}

impl<'a, S: Source> Read for Reading<'a, S> {
    fn read(&mut self, into: &mut [u8]) -> io::Result<usize> {
        if into.is_empty() {
            return Ok(0);
        }
        let first = &self.first[self.at..];
        if first.is_empty() {
            return match self.source.read(into) {
                Ok(count) => Ok(count),
                Err(Failed) => Err(io::Error::from(ErrorKind::Other)),
            };
        }
        let count = into.len().min(first.len());
        into[..count].copy_from_slice(&first[..count]);
        self.at += count;
        Ok(count)
    }
}

/// The sink, written to.
#[derive(Drop)]
pub(crate) struct Writing<'a, K> {
    sink: &'a mut K,
}

impl<'a, K: Sink> Write for Writing<'a, K> {
    fn write(&mut self, piece: &[u8]) -> io::Result<usize> {
        if piece.is_empty() {
            return Ok(0);
        }
        match self.sink.write(piece) {
            Ok(count) => Ok(count),
            Err(Failed) => Err(io::Error::from(ErrorKind::Other)),
        }
    }

    fn flush(&mut self) -> io::Result<()> {
        Ok(())
    }
}

/// Both ends of a connection.
pub(crate) type Stream<'a, S, K> = Duplex<Reading<'a, S>, Writing<'a, K>>;

/// The ends of a connection of which these bytes were read.
pub(crate) fn stream<'a, S: Source, K: Sink>(
    first: Vec<u8>,
    source: &'a mut S,
    sink: &'a mut K,
) -> Stream<'a, S, K> {
    let reader = Reading {
        first,
        at: 0,
        source,
    };
    let writer = Writing { sink };
    Duplex { reader, writer }
}
