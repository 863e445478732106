//! The clipboard, and the keys that its text is typed by.

ghost use Rattle.std.specs.Prelude.{◌≡◌};
ghost use Rattle.clip_stream.specs.Clips.{is_kept, wish_of};

use crate::pasted::Pasted;
use crate::waiting::Waiting;
use crate::wish::{Wish, read_wish};
use gate_model::NoMemory;
use guac_framing::Frame;
use std::alloc::Global;
use std::marker::Model;

/// The clipboard: the stream that is open with its bytes, or what is typed of them, and the keys that wait. Contracts
/// see a `Clipboard`, in which the keys of all that isn't typed yet wait.
#[derive(Drop)]
pub(crate) struct Clip {
    stream: Option<u128>,
    pasted: Pasted,
    // Up to where the bytes are typed or not to be typed, and whether a carriage return stands before it.
    at: usize,
    returned: bool,
    waiting: Waiting,
}

impl Model for Clip {
    ghost use Rattle.std.specs.Prelude.{◌≡◌, ◌≤◌, ◌++◌, [], drop, length};
    ghost use Rattle.clip_stream.specs.Clips.{clip_of};
    ghost use Rattle.clip_stream.specs.Pasted.{Clipboard};
    ghost use Rattle.clip_stream.specs.Typed.{strokes_of};

    ghost Value = { Clipboard };

    ghost view = { λ c. record { clip = clip_of c.stream c.pasted; waiting = c.waiting ++ strokes_of c.returned (drop c.at c.pasted) } };

    // Where something is to be typed some text waits.
    ghost invariant = { λ c. (c.at ≤ length c.pasted) × (c.waiting ≡ [] → length c.pasted ≤ c.at) };
}

impl Clip {
    ghost use Rattle.std.specs.Prelude.{◌≡◌, ◌<◌, ◌≤◌, ◌++◌, [], None, Some, ℕ, true, length, take, IfOk};
    ghost use Rattle.clip_stream.specs.Clips.{clip_after, clip_of, is_open, put_for, wish_of, Brings, Ends};
    ghost use Rattle.clip_stream.specs.Pasted.{has_some};

    /// A clipboard on which no stream is open.
    pub(crate) fn new(alloc: Global) -> Result<Clip, NoMemory>
        ensures { IfOk result (λ clip. clip ≡ record { clip = None; waiting = [] }) }
    {
        let pasted = Pasted::new(alloc)?;
        let waiting = Waiting::new(alloc)?;
        Ok(Clip {
            stream: None,
            pasted,
            at: 0,
            returned: false,
            waiting,
        })
    }

    /// Whether keys wait to be given.
    pub(crate) fn waits(&self) -> bool
        ensures { result ≡ has_some self.now.waiting }
    {
        self.waiting.has_some()
    }

    /// Does what the instruction asks; no keys wait before it.
    pub(crate) fn take_up(&mut self, frame: &Frame<'_>)
        requires none { self.old.waiting ≡ [] }
        ensures clip { self.new.clip ≡ clip_after self.old.clip (wish_of frame.now) }
        ensures keys { self.new.waiting ≡ put_for self.old.clip [] (wish_of frame.now) }
    {
        match read_wish(frame) {
            Wish::Opens(stream) => self.begin(Some(stream)),
            Wish::Closes => self.begin(None),
            Wish::Brings(stream, encoded) => self.bring(stream, encoded),
            Wish::Ends(stream) => self.end(stream),
            Wish::Kept | Wish::Idle => {}
        }
    }

    // Whether this stream is open.
    fn is_open(&self, stream: u128) -> bool
        ensures { result ≡ is_open self.now.clip stream }
    {
        self.stream == Some(stream)
    }

    // Opens a stream, empty, in place of any other, or none.
    fn begin(&mut self, stream: Option<u128>)
        requires none { self.old.waiting ≡ [] }
        ensures clip { self.new.clip ≡ clip_of stream [] }
        ensures keys { self.new.waiting ≡ [] }
    {
        self.stream = stream;
        self.pasted.clear();
        self.at = 0;
    }

    // Takes up bytes of the stream, or closes it where they don't decode or are too many.
    fn bring(&mut self, stream: u128, encoded: &str)
        requires none { self.old.waiting ≡ [] }
        ensures clip { self.new.clip ≡ clip_after self.old.clip (Brings stream encoded.now) }
        ensures keys { self.new.waiting ≡ [] }
    {
        if !self.is_open(stream) {
            return;
        }
        // Where it is closed nothing is to be typed of what it had.
        if !self.pasted.extend(encoded) {
            self.stream = None;
        }
        self.at = self.pasted.len();
    }

    // Types the bytes of the stream, and closes it.
    fn end(&mut self, stream: u128)
        requires none { self.old.waiting ≡ [] }
        ensures clip { self.new.clip ≡ clip_after self.old.clip (Ends stream) }
        ensures keys { self.new.waiting ≡ put_for self.old.clip [] (Ends stream) }
    {
        if !self.is_open(stream) {
            return;
        }
        self.stream = None;
        self.at = 0;
        self.returned = false;
        self.waiting.begin();
    }

    /// Gives the first keys that wait.
    pub(crate) fn give(&mut self, into: &mut [u8]) -> usize
        requires some { has_some self.old.waiting ≡ true }
        requires room { 0 < length into.old }
        ensures some { 0 < result }
        ensures within { result ≤ length into.old }
        ensures given { self.old.waiting ≡ take result into.new ++ self.new.waiting }
        ensures clip { self.new.clip ≡ self.old.clip }
    {
        let count = self.waiting.give(into);
        if !self.waiting.has_some() {
            (self.at, self.returned) = self
                .waiting
                .refill(self.pasted.as_slice(), self.at, self.returned);
        }
        count
    }
}

/// Whether the instruction is none of the three that are taken out.
pub(crate) fn is_kept(frame: &Frame<'_>) -> bool
    ensures { result ≡ is_kept (wish_of frame.now) }
{
    matches!(read_wish(frame), Wish::Kept)
}
