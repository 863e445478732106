//! What an instruction asks of the clipboard.

ghost use Rattle.std.specs.Prelude.{◌≡◌, option_copied, slice_get};
ghost use Rattle.gate_model.specs.text.Numerals.{value_at};
ghost use Rattle.clip_stream.specs.Asked.{asked};
ghost use Rattle.clip_stream.specs.Clips.{brings, ends, opens, stream_of, wish_of};

use guac_framing::Frame;
use numerals::number;

/// The most digits of a stream's number (this project's own).
const MOST_DIGITS: usize = 10;

/// What an instruction asks of the clipboard, with the text of a blob lent from its bytes.
#[derive(Clone, Copy)]
pub(crate) enum Wish<'a> {
    /// It is none of the three that are taken out.
    Kept,
    /// A text begins on this stream.
    Opens(u128),
    /// What is open is given up.
    Closes,
    /// Bytes of the text come on this stream, in Base64.
    Brings(u128, &'a str),
    /// The text of this stream is whole.
    Ends(u128),
    /// Nothing.
    Idle,
}

/// What the instruction asks (the Guacamole manual, "Guacamole protocol reference", on `clipboard`, `blob` and `end`).
pub(crate) fn read_wish<'a>(frame: &Frame<'a>) -> Wish<'a>
    ensures { asked result ≡ wish_of frame.now }
{
    match value(frame, 0) {
        Some("clipboard") => read_clipboard(frame),
        Some("blob") => read_blob(frame),
        Some("end") => read_end(frame),
        _ => Wish::Kept,
    }
}

// The value of element `k`, if it is there. The opcode is element 0.
fn value<'a>(frame: &Frame<'a>, k: usize) -> Option<&'a str>
    ensures { option_copied result ≡ slice_get frame.now k }
{
    if k < frame.count() {
        Some(frame.element(k))
    } else {
        None
    }
}

// The stream at element 1.
fn stream(frame: &Frame<'_>) -> Option<u128>
    ensures { result ≡ value_at stream_of 1 frame.now }
{
    let value = value(frame, 1)?;
    if value.len() <= MOST_DIGITS {
        number(value.as_bytes())
    } else {
        None
    }
}

fn read_clipboard<'a>(frame: &Frame<'a>) -> Wish<'a>
    ensures { asked result ≡ opens (value_at stream_of 1 frame.now) (slice_get frame.now 2) }
{
    match (stream(frame), value(frame, 2)) {
        (Some(stream), Some("text/plain")) => Wish::Opens(stream),
        _ => Wish::Closes,
    }
}

fn read_blob<'a>(frame: &Frame<'a>) -> Wish<'a>
    ensures { asked result ≡ brings (value_at stream_of 1 frame.now) (slice_get frame.now 2) }
{
    match (stream(frame), value(frame, 2)) {
        (Some(stream), Some(encoded)) => Wish::Brings(stream, encoded),
        _ => Wish::Idle,
    }
}

fn read_end<'a>(frame: &Frame<'a>) -> Wish<'a>
    ensures { asked result ≡ ends (value_at stream_of 1 frame.now) }
{
    match stream(frame) {
        Some(stream) => Wish::Ends(stream),
        None => Wish::Idle,
    }
}
