//! The pieces of the input.

ghost use Rattle.std.specs.Prelude.{◌≡◌, ◌++◌, ◌∷◌, [], ◌<◌, ◌≤◌, ◌+◌, length, take, true, false, Some, None, position};
ghost use Rattle.std.specs.List.{position_or_len};
ghost use Rattle.script_grammar.specs.Pieces.{first_piece, is_line_feed};

/// How many of the bytes at hand go on with the piece that has begun, and whether it is whole then.
#[derive(Clone, Copy)]
pub struct Part {
    /// How many bytes.
    pub count: usize,
    /// Whether the piece is whole.
    pub whole: bool,
}

/// The part of the bytes at hand that belongs to the piece that has begun. A piece has at most `most`
/// bytes.
pub fn next_part(most: usize, piece: &[u8], bytes: &[u8]) -> Part
    requires begun { first_piece most piece.now ≡ None }
    requires some { 0 < length bytes.now }
    ensures some { 0 < result.count }
    ensures within { result.count ≤ length bytes.now }
    ensures few { length piece.now + result.count ≤ most }
    ensures whole { result.whole ≡ true → first_piece most (piece.now ++ take result.count bytes.now) ≡ Some ((piece.now ++ take result.count bytes.now) ∷ [], []) }
    ensures unfinished { result.whole ≡ false → first_piece most (piece.now ++ take result.count bytes.now) ≡ None }
{
    let room = most - piece.len();
    let count = room.min(line_length(bytes) + 1);
    if count <= bytes.len() {
        Part { count, whole: true }
    } else {
        Part {
            count: bytes.len(),
            whole: false,
        }
    }
}

// How many bytes stand before the first line feed.
fn line_length(bytes: &[u8]) -> usize
    ensures length { result ≡ position_or_len is_line_feed bytes.now }
    ensures within { result ≤ length bytes.now }
{
    match line_feed(bytes) {
        Some(place) => place,
        None => bytes.len(),
    }
}

// The place of the first line feed.
fn line_feed(bytes: &[u8]) -> Option<usize>
    ensures { result ≡ position is_line_feed bytes.now }
{
    bytes.iter().position(|byte| *byte == b'\n')
}
