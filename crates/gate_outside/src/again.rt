ghost use Rattle.std.specs.Prelude.{◌≡◌, ◌≤◌, length};

use crate::copying::copy_front;
use crate::{Failed, Source};
use gate_model::Bytes;

/// A source that gives some bytes first, and then what an inner source gives.
#[derive(Drop)]
pub struct Again<S> {
    first: Bytes,
    at: usize,
    source: S,
    ghost within: { at ≤ length first },
}

impl<S: Source> Again<S> {
    ghost use Rattle.std.specs.Prelude.{◌≡◌};
    ghost use Rattle.gate_outside.specs.Ahead.{first_of, source_of};

    /// A source that gives `first` and then what `source` gives.
    pub fn new(first: Bytes, source: S) -> Again<S>
        ensures first { first_of result ≡ first }
        ensures source { source_of result ≡ source }
    {
        Again {
            first,
            at: 0,
            source,
        }
    }
}

impl<S: Source> Source for Again<S> {
    ghost use Rattle.gate_outside.specs.Edge.{came};
    ghost use Rattle.gate_outside.specs.Ahead.{first_of, source_of};

    ghost left = { λ s. came (first_of s) (S.left (source_of s)) };

    ghost faults = { λ s. S.faults (source_of s) };

    fn read(&mut self, into: &mut [u8]) -> Result<usize, Failed> {
        let first = &self.first.as_slice()[self.at..];
        if first.is_empty() {
            return self.source.read(into);
        }
        let n = copy_front(first, into.len(), into);
        self.at += n;
        Ok(n)
    }
}
