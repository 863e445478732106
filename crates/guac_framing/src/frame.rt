//! The elements of an instruction that was read.

use crate::limits::MOST_ELEMENTS;
use crate::span::{Span, text_in};
use std::marker::Model;

/// The elements of an instruction, lent from the bytes that it was read from. Contracts see the list of
/// the values, each as its bytes of UTF-8.
#[derive(Drop)]
pub struct Frame<'a> {
    bytes: &'a [u8],
    spans: [Span; MOST_ELEMENTS],
    count: usize,
}

impl<'a> Model for Frame<'a> {
    ghost use Rattle.std.specs.Prelude.{List, ℕ, ◌≤◌, take};

    ghost Value = { List (List ℕ) };

    ghost use Rattle.guac_framing.specs.Spans.{AreSpans, texts_at};

    ghost view = { λ f. texts_at f.bytes.now (take f.count f.spans) };

    ghost invariant = { λ f. (f.count ≤ 128) × AreSpans f.bytes.now (take f.count f.spans) };
}

impl<'a> Frame<'a> {
    ghost use Rattle.std.specs.Prelude.{◌≡◌, ◌<◌, ◌≤◌, length, slice_get, Some, take};
    ghost use Rattle.guac_framing.specs.Spans.{AreSpans, texts_at};

    /// The elements at the first spans, of this number.
    pub(crate) fn new(bytes: &'a [u8], spans: [Span; MOST_ELEMENTS], count: usize) -> Frame<'a>
        requires count { count ≤ 128 }
        requires spans { AreSpans bytes.now (take count spans) }
        ensures { result ≡ texts_at bytes.now (take count spans) }
    {
        Frame {
            bytes,
            spans,
            count,
        }
    }

    /// How many elements there are, the opcode among them: 1 to 128.
    pub fn count(&self) -> usize
        ensures { result ≡ length self.now }
    {
        self.count
    }

    /// The value of element `k`, counted from 0, which is less than the count. It is a slice of the bytes
    /// that the instruction was read from.
    pub fn element(&self, k: usize) -> &'a str
        requires { k < length self.now }
        ensures { slice_get self.now k ≡ Some result.now }
    {
        let spans = &self.spans[..self.count];
        text_in(self.bytes, spans[k])
    }
}
