//! Which stream of an input is looked at.

ghost use Rattle.std.specs.Prelude.{◌≡◌};
ghost use Rattle.look.specs.Choosing.{text_behind};

use bstr::ByteSlice;
use gate_model::NoMemory;
use itoa::Buffer;
use std::alloc::Global;

/// Whether the input is frames, as the program guacgate writes them: its first line begins with a number and
/// a blank. Otherwise it is the stream of a viewer, whose first instruction begins with a number and a dot.
pub fn is_frames(input: &[u8]) -> bool {
    for byte in input {
        if !byte.is_ascii_digit() {
            return *byte == b' ';
        }
    }
    false
}

/// The texts of the frames' lines with this number, joined: 0 for the session's own frames, else what that
/// viewer was given. The only error is want of memory.
pub fn text_of_viewer(alloc: Global, frames: &[u8], viewer: u32) -> Result<Vec<u8>, NoMemory> {
    let mut head = Vec::new(alloc);
    head.extend_from_slice(Buffer::new().format(viewer).as_bytes())?;
    head.push(b' ')?;
    let mut text = Vec::new(alloc);
    for line in frames.lines() {
        text.extend_from_slice(text_behind(&head, line))?;
    }
    Ok(text)
}

// The text of a line that has this head; nothing of any other.
fn text_behind<'a>(head: &[u8], line: &'a [u8]) -> &'a [u8]
    ensures { result.now ≡ text_behind head.now line.now }
{
    if line.starts_with(head) {
        &line[head.len()..]
    } else {
        &[]
    }
}
