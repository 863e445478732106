//! The lines of a script.

ghost use Rattle.std.specs.Prelude.{◌≡◌, ◌≤◌, ◌+◌, ◌-◌, ◌^◌, length, position, option_and_then, IfOk, bytes_eq};
ghost use Rattle.std.specs.Option.{option_map};
ghost use Rattle.script_grammar.specs.Grammar.{alone, asked_of, behind_word, comparing, content, end_length, first_word, in_place, is_blank, judged, joining, leaving, line_of, looking, meant, mode_of, most_line, most_of, most_script, most_taken, moved, new_size, pixel_place, reading, resizing, served, start_mode, start_rows, taking, writing};
ghost use Rattle.script_grammar.specs.Hexadecimal.{bytes_of};
ghost use Rattle.script_grammar.specs.Numbers.{number_up_to};
ghost use Rattle.script_grammar.specs.Words.{size_of};
ghost use Rattle.script_grammar.specs.Lines.{IsInRange};
ghost use Rattle.gate_model.specs.Limits.{most_entries};

use crate::hexadecimal::bytes_of;
use crate::line::Line;
use crate::numbers::{number, number_of_32_bits, number_of_64_bits};
use crate::text_form::TextForm;
use crate::words::size_of;
use gate_model::{Asked, Bytes, NoMemory, Share};
use std::alloc::Global;

/// The most bytes that the host sends at once.
const MOST_PIECE: usize = 65536;

/// The most bytes of a take (this project's own rule).
const MOST_TAKEN: u128 = 65536;

/// The most bytes of a line without its end, and of a script (this project's own rule).
const MOST_LINE: usize = 262144;

const MOST_SCRIPT: u64 = 67108864;

/// The most bytes of a piece of the input: of a longer line of a script only the front is read, which
/// tells that it is too long.
pub fn most_of(form: TextForm) -> usize
    ensures { result ≡ most_of form }
{
    match form {
        TextForm::Draw(_) => MOST_PIECE,
        TextForm::Script(_) => MOST_LINE + 2,
    }
}

/// What the piece of a script says that stands after `before` bytes of it, where the session may have so
/// many entries. `opened` says whether the session has started: `start` comes once, and before it nothing
/// but `at`. A line outside the grammar, of more than 262,144 bytes without its end, or that holds byte
/// 67,108,865 of the script, is `Line::Bad`. The only error is want of memory.
pub fn judged(
    alloc: Global,
    entries: u64,
    opened: bool,
    before: u64,
    piece: &[u8],
) -> Result<Line, NoMemory>
    requires some { 1 ≤ entries }
    requires few { entries ≤ most_entries }
    requires before { before ≤ most_script }
    requires short { length piece.now ≤ most_line + 2 }
    ensures says { IfOk result (λ l. l ≡ judged entries opened before piece.now) }
    ensures in_range { IfOk result IsInRange }
    ensures placed { IfOk result (λ l. in_place opened l ≡ l) }
{
    let text = content(piece);
    if before + piece.len() as u64 > MOST_SCRIPT || text.len() > MOST_LINE {
        return Ok(Line::Bad);
    }
    let line = line_of(alloc, entries, text)?;
    Ok(in_place(opened, line))
}

// The line, where it may stand: after `start`, or before it.
fn in_place(opened: bool, line: Line) -> Line
    requires { IsInRange line }
    ensures exact { result ≡ in_place opened line }
    ensures in_range { IsInRange result }
    ensures placed { in_place opened result ≡ result }
{
    match line {
        Line::Blank | Line::Bad | Line::At(_) => line,
        Line::Start(_, _, _) if opened => Line::Bad,
        Line::Start(_, _, _) => line,
        line if opened => line,
        _ => Line::Bad,
    }
}

// What a line says that has this content.
fn line_of(alloc: Global, entries: u64, text: &[u8]) -> Result<Line, NoMemory>
    requires some { 1 ≤ entries }
    requires few { entries ≤ most_entries }
    ensures says { IfOk result (λ l. l ≡ line_of entries text.now) }
    ensures in_range { IfOk result IsInRange }
{
    if text.is_empty() || text[0] == b'#' {
        return Ok(Line::Blank);
    }
    let words = split(text);
    match words.behind {
        Some(behind) => meant(alloc, entries, words.first, behind),
        None => Ok(alone(words.first)),
    }
}

// A line without its end: a line feed, or a carriage return and a line feed.
fn content(piece: &[u8]) -> &[u8]
    ensures { result.now ≡ content piece.now }
{
    &piece[..piece.len() - end_length(piece)]
}

// The first word, and what stands behind the blank after it.
#[derive(Clone, Copy)]
struct Words<'a> {
    first: &'a [u8],
    behind: Option<&'a [u8]>,
}

fn split(text: &[u8]) -> Words<'_>
    ensures first { result.first.now ≡ first_word text.now }
    ensures behind { option_map (λ s. s.now) result.behind ≡ behind_word text.now }
{
    match blank_place(text) {
        Some(place) => Words {
            first: &text[..place],
            behind: Some(&text[place + 1..]),
        },
        None => Words {
            first: text,
            behind: None,
        },
    }
}

// The place of the first blank.
fn blank_place(text: &[u8]) -> Option<usize>
    ensures { result ≡ position is_blank text.now }
{
    text.iter().position(|byte| is_blank(*byte))
}

// Whether the byte separates words.
fn is_blank(byte: u8) -> bool
    ensures { result ≡ is_blank byte }
{
    byte == b' ' || byte == b'\t'
}

// Whether the text is this word.
fn is(text: &[u8], word: &str) -> bool
    ensures { result ≡ bytes_eq text.now word.now }
{
    text == word.as_bytes()
}

// A line of one word.
fn alone(word: &[u8]) -> Line
    ensures says { result ≡ alone word.now }
    ensures in_range { IsInRange result }
{
    if is(word, "close") {
        Line::Close
    } else {
        Line::Bad
    }
}

// A line by its first word, and what stands behind it.
fn meant(alloc: Global, entries: u64, name: &[u8], text: &[u8]) -> Result<Line, NoMemory>
    requires some { 1 ≤ entries }
    requires few { entries ≤ most_entries }
    ensures says { IfOk result (λ l. l ≡ meant entries name.now text.now) }
    ensures in_range { IfOk result IsInRange }
{
    if is(name, "at") {
        return Ok(at(text));
    }
    if is(name, "start") {
        return Ok(start(entries, text));
    }
    if is(name, "server") {
        return server(alloc, text);
    }
    if is(name, "join") {
        return Ok(join(text));
    }
    if is(name, "read") {
        return Ok(read(text));
    }
    if is(name, "write") {
        return write(alloc, text);
    }
    if is(name, "size") {
        return Ok(size(text));
    }
    if is(name, "take") {
        return Ok(take(text));
    }
    if is(name, "leave") {
        return Ok(leave(text));
    }
    if is(name, "pixel") {
        return Ok(pixel(text));
    }
    Ok(if is(name, "same") {
        same(text)
    } else {
        Line::Bad
    })
}

// `at MOMENT`
fn at(text: &[u8]) -> Line
    ensures says { result ≡ moved (number_up_to (2 ^ 64 - 1) text.now) }
    ensures in_range { IsInRange result }
{
    match number_of_64_bits(text) {
        Some(now) => Line::At(now),
        None => Line::Bad,
    }
}

// `start COLS ROWS MODE`
fn start(entries: u64, text: &[u8]) -> Line
    requires some { 1 ≤ entries }
    requires few { entries ≤ most_entries }
    ensures says { result ≡ start_rows entries (first_word text.now) (behind_word text.now) }
    ensures in_range { IsInRange result }
{
    let words = split(text);
    match words.behind {
        Some(behind) => start_with(entries, words.first, behind),
        None => Line::Bad,
    }
}

// `start` with this word for the columns, and then `ROWS MODE`
fn start_with(entries: u64, cols: &[u8], text: &[u8]) -> Line
    requires some { 1 ≤ entries }
    requires few { entries ≤ most_entries }
    ensures says { result ≡ start_mode entries cols.now (first_word text.now) (behind_word text.now) }
    ensures in_range { IsInRange result }
{
    let words = split(text);
    match words.behind {
        Some(mode) => match (size_of(cols, words.first), mode_of(mode)) {
            (Some(size), Some(mode)) => Line::Start(size, mode, entries),
            _ => Line::Bad,
        },
        None => Line::Bad,
    }
}

// The share mode of this name.
fn mode_of(word: &[u8]) -> Option<Share>
    ensures { result ≡ mode_of word.now }
{
    if is(word, "none") {
        Some(Share::Nobody)
    } else if is(word, "view") {
        Some(Share::View)
    } else if is(word, "control") {
        Some(Share::Control)
    } else {
        None
    }
}

// `server HEX`
fn server(alloc: Global, text: &[u8]) -> Result<Line, NoMemory>
    ensures says { IfOk result (λ l. l ≡ served (bytes_of text.now)) }
    ensures in_range { IfOk result IsInRange }
{
    match bytes_of(alloc, text)? {
        Some(bytes) if 1 <= bytes.len() && bytes.len() <= MOST_PIECE => {
            Ok(Line::Server(Bytes::of(bytes)))
        }
        _ => Ok(Line::Bad),
    }
}

// `join ASKED`
fn join(text: &[u8]) -> Line
    ensures says { result ≡ joining (asked_of text.now) }
    ensures in_range { IsInRange result }
{
    match asked_of(text) {
        Some(asked) => Line::Join(asked),
        None => Line::Bad,
    }
}

// What a viewer asks for by this name.
fn asked_of(word: &[u8]) -> Option<Asked>
    ensures { result ≡ asked_of word.now }
{
    if is(word, "owner") {
        Some(Asked::Owner)
    } else if is(word, "control") {
        Some(Asked::Control)
    } else if is(word, "view") {
        Some(Asked::View)
    } else if is(word, "keep") {
        Some(Asked::Keep)
    } else {
        None
    }
}

// `read VIEWER`
fn read(text: &[u8]) -> Line
    ensures says { result ≡ reading (number_up_to (2 ^ 32 - 1) text.now) }
    ensures in_range { IsInRange result }
{
    match number_of_32_bits(text) {
        Some(viewer) => Line::Read(viewer),
        None => Line::Bad,
    }
}

// `write VIEWER TEXT`
fn write(alloc: Global, text: &[u8]) -> Result<Line, NoMemory>
    ensures says { IfOk result (λ l. l ≡ writing (number_up_to (2 ^ 32 - 1) (first_word text.now)) (behind_word text.now)) }
    ensures in_range { IfOk result IsInRange }
{
    let words = split(text);
    match (number_of_32_bits(words.first), words.behind) {
        (Some(viewer), Some(behind)) => {
            let text = Bytes::of(Vec::from_slice(alloc, behind)?);
            Ok(Line::Write(viewer, text))
        }
        _ => Ok(Line::Bad),
    }
}

// `size VIEWER COLS ROWS`
fn size(text: &[u8]) -> Line
    ensures says { result ≡ new_size (first_word text.now) (behind_word text.now) }
    ensures in_range { IsInRange result }
{
    let words = split(text);
    match words.behind {
        Some(behind) => size_for(words.first, behind),
        None => Line::Bad,
    }
}

// `size` with this word for the viewer, and then `COLS ROWS`
fn size_for(viewer: &[u8], text: &[u8]) -> Line
    ensures says { result ≡ resizing (number_up_to (2 ^ 32 - 1) viewer.now) (option_and_then (size_of (first_word text.now)) (behind_word text.now)) }
    ensures in_range { IsInRange result }
{
    let words = split(text);
    let Some(rows) = words.behind else {
        return Line::Bad;
    };
    match (number_of_32_bits(viewer), size_of(words.first, rows)) {
        (Some(viewer), Some(size)) => Line::Resize(viewer, size),
        _ => Line::Bad,
    }
}

// `take MOST`
fn take(text: &[u8]) -> Line
    ensures says { result ≡ taking (number_up_to most_taken text.now) }
    ensures in_range { IsInRange result }
{
    match number(text) {
        Some(most) if most <= MOST_TAKEN => Line::Take(most as u32),
        _ => Line::Bad,
    }
}

// `leave VIEWER`
fn leave(text: &[u8]) -> Line
    ensures says { result ≡ leaving (number_up_to (2 ^ 32 - 1) text.now) }
    ensures in_range { IsInRange result }
{
    match number_of_32_bits(text) {
        Some(viewer) => Line::Leave(viewer),
        None => Line::Bad,
    }
}

// `pixel VIEWER X Y`
fn pixel(text: &[u8]) -> Line
    ensures says { result ≡ pixel_place (first_word text.now) (behind_word text.now) }
    ensures in_range { IsInRange result }
{
    let words = split(text);
    match words.behind {
        Some(place) => pixel_at(words.first, place),
        None => Line::Bad,
    }
}

// `pixel` with this word for the viewer, and then `X Y`
fn pixel_at(viewer: &[u8], text: &[u8]) -> Line
    ensures says { result ≡ looking (number_up_to (2 ^ 32 - 1) viewer.now) (number_up_to (2 ^ 64 - 1) (first_word text.now)) (option_and_then (number_up_to (2 ^ 64 - 1)) (behind_word text.now)) }
    ensures in_range { IsInRange result }
{
    let words = split(text);
    let Some(y) = words.behind else {
        return Line::Bad;
    };
    let viewer = number_of_32_bits(viewer);
    match (viewer, number_of_64_bits(words.first), number_of_64_bits(y)) {
        (Some(viewer), Some(x), Some(y)) => Line::Pixel(viewer, x, y),
        _ => Line::Bad,
    }
}

// `same VIEWER VIEWER`
fn same(text: &[u8]) -> Line
    ensures says { result ≡ comparing (number_up_to (2 ^ 32 - 1) (first_word text.now)) (option_and_then (number_up_to (2 ^ 32 - 1)) (behind_word text.now)) }
    ensures in_range { IsInRange result }
{
    let words = split(text);
    let Some(other) = words.behind else {
        return Line::Bad;
    };
    match (number_of_32_bits(words.first), number_of_32_bits(other)) {
        (Some(one), Some(other)) => Line::Same(one, other),
        _ => Line::Bad,
    }
}

// How many bytes end the line.
fn end_length(piece: &[u8]) -> usize
    ensures exact { result ≡ end_length piece.now }
    ensures within { result ≤ length piece.now }
{
    if piece.ends_with(b"\r\n") {
        2
    } else if piece.ends_with(b"\n") {
        1
    } else {
        0
    }
}
