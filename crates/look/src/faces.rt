//! A picture as text: the face that each cell shows.

ghost use Rattle.std.specs.Prelude.{◌≡◌, ◌<◌, ◌≤◌, ℕ, Bool, IfSome, IsTrue, length};
ghost use Rattle.gate_model.specs.picture.Layers.{Layers, visible};
ghost use Rattle.canvas.specs.Standing.{Stands, dot_at};
ghost use Rattle.canvas.specs.declared.dot.Dot.TheVariants.{Painted};
ghost use Rattle.look.specs.Faces.{HasPixel, ShowsFace};

use canvas::{Canvas, Dot};
use gate_model::more_faces::number_of;
use gate_model::{Colour, NoMemory};
use glyph_table::lit;
use std::alloc::Global;

/// The face of every glyph that isn't in the font: its glyph is a box.
const BOX: char = '\u{fffd}';

/// The faces of the left and the right half of a character that takes two cells.
const LEFT: char = '\u{e000}';

const RIGHT: char = '\u{e001}';

/// What stands for a cell that shows no glyph: a block of dots.
const UNKNOWN: char = '\u{2592}';

const BLACK: Colour = Colour {
    red: 0,
    green: 0,
    blue: 0,
};

// The two colours of a cell.
#[derive(Clone, Copy)]
struct Pair {
    ink: Colour,
    paper: Colour,
}

/// The face that a cell of layer 0 shows: the cell is exactly its glyph, underlined or not, in two colours.
/// None where it is the glyph of no face of ASCII, and of none of the others that are given. A cell of one
/// colour shows a space, and where two faces are each other's glyph in exchanged colours, the one on black is
/// told. Columns and rows are counted from 0, and are below 2^16.
pub fn face_at(canvas: &Canvas, others: &[char], column: u32, row: u32) -> Option<char>
    requires column { column < 65536 }
    requires row { row < 65536 }
    ensures { (m : Layers) → Stands canvas.now m → IfSome result (ShowsFace (m visible) column row) }
{
    let pair = pair_at(canvas, column, row)?;
    for code in b' '..=b'~' {
        let face = char::from(code);
        if is_face(canvas, column, row, face, pair) {
            return Some(face);
        }
    }
    if let Some(face) = face_among(canvas, &[BOX, LEFT, RIGHT], column, row, pair) {
        return Some(face);
    }
    let pair = on_black(pair);
    if let Some(face) = face_among(canvas, others, column, row, pair) {
        return Some(face);
    }
    face_among(canvas, others, column, row, exchanged(pair))
}

// The first of some faces that the cell shows in these colours, if it shows one.
fn face_among(canvas: &Canvas, faces: &[char], column: u32, row: u32, pair: Pair) -> Option<char>
    requires column { column < 65536 }
    requires row { row < 65536 }
    ensures { (m : Layers) → Stands canvas.now m → IfSome result (ShowsFace (m visible) column row) }
{
    for face in faces {
        if is_face(canvas, column, row, *face, pair) {
            return Some(*face);
        }
    }
    None
}

// The colours exchanged.
fn exchanged(pair: Pair) -> Pair {
    Pair {
        ink: pair.paper,
        paper: pair.ink,
    }
}

// The colours so that the paper is black, where one of them is. Line drawing and blocks may have ink in the corner.
fn on_black(pair: Pair) -> Pair {
    if pair.ink == BLACK {
        return exchanged(pair);
    }
    pair
}

// The faces beyond ASCII, but for those of characters that take two cells.
fn faces_beyond_ascii(alloc: Global) -> Result<Vec<char>, NoMemory> {
    let mut faces = Vec::new(alloc);
    for code in 0xa1..0x10000 {
        if let Some(face) = char::from_u32(code) {
            if matches!(face, '\u{2500}'..='\u{259f}') || number_of(face).is_some() {
                faces.push(face)?;
            }
        }
    }
    Ok(faces)
}

// The colours that a glyph in this cell would have: its paper is the corner's, where no glyph is lit.
fn pair_at(canvas: &Canvas, column: u32, row: u32) -> Option<Pair>
    requires column { column < 65536 }
    requires row { row < 65536 }
{
    let paper = colour_at(canvas, 8 * column, 16 * row)?;
    for place in 0..128 {
        let ink = colour_at(canvas, 8 * column + place % 8, 16 * row + place / 8)?;
        if ink != paper {
            return Some(Pair { ink, paper });
        }
    }
    Some(Pair { ink: paper, paper })
}

// The colour of a pixel, if it has one.
fn colour_at(canvas: &Canvas, x: u32, y: u32) -> Option<Colour> {
    match canvas.pixel(0, x, y) {
        Dot::Painted(colour) => Some(colour),
        Dot::Clear | Dot::Outside => None,
    }
}

// Whether the cell shows the face, underlined or not, in these colours.
fn is_face(canvas: &Canvas, column: u32, row: u32, face: char, pair: Pair) -> bool
    requires column { column < 65536 }
    requires row { row < 65536 }
    ensures { (m : Layers) → Stands canvas.now m → IsTrue result → ShowsFace (m visible) column row face }
{
    has_lines(canvas, column, row, face, false, pair)
        || has_lines(canvas, column, row, face, true, pair)
}

// Whether the cell is the glyph of the face in these colours.
fn has_lines(canvas: &Canvas, column: u32, row: u32, face: char, under: bool, pair: Pair) -> bool
    requires column { column < 65536 }
    requires row { row < 65536 }
    ensures { (m : Layers) → Stands canvas.now m → IsTrue result → (x y : ℕ) → x < 8 → y < 16 → HasPixel (m visible) column row face under pair.ink pair.paper x y }
{
    for y in 0..16 {
        if !has_line(canvas, column, row, face, under, pair, y) {
            return false;
        }
    }
    true
}

// Whether a line of the cell is that of the glyph.
fn has_line(
    canvas: &Canvas,
    column: u32,
    row: u32,
    face: char,
    under: bool,
    pair: Pair,
    y: u8,
) -> bool
    requires column { column < 65536 }
    requires row { row < 65536 }
    requires line { y < 16 }
    ensures { (m : Layers) → Stands canvas.now m → IsTrue result → (x : ℕ) → x < 8 → HasPixel (m visible) column row face under pair.ink pair.paper x y }
{
    for x in 0..8 {
        let colour = if lit(face, under, x, y) {
            pair.ink
        } else {
            pair.paper
        };
        if canvas.pixel(0, 8 * column + u32::from(x), 16 * row + u32::from(y))
            != Dot::Painted(colour)
        {
            return false;
        }
    }
    true
}

/// The picture as lines of text, one a row, each ended by a line feed and without the blanks at its end.
/// A cell that shows no glyph is told as U+2592, and a character that takes two cells as U+FFFD and a blank. The only
/// error is want of memory.
pub fn text_of(alloc: Global, canvas: &Canvas) -> Result<Vec<u8>, NoMemory> {
    let (width, height) = canvas.layer_size(0);
    let faces = faces_beyond_ascii(alloc)?;
    let mut text = String::new(alloc);
    for row in 0..(height / 16).min(65536) {
        put_row(&mut text, canvas, &faces, row, (width / 8).min(65536))?;
    }
    Ok(text.into_bytes())
}

// Appends a row of so many columns.
fn put_row(
    text: &mut String,
    canvas: &Canvas,
    faces: &[char],
    row: u32,
    columns: u32,
) -> Result<(), NoMemory>
    requires row { row < 65536 }
    requires columns { columns ≤ 65536 }
{
    let mut blanks: u32 = 0;
    for column in 0..columns {
        match face_at(canvas, faces, column, row).unwrap_or(UNKNOWN) {
            ' ' | RIGHT => blanks += 1,
            face => {
                put_blanks(text, blanks)?;
                blanks = 0;
                text.push(if face == LEFT { BOX } else { face })?;
            }
        }
    }
    text.push('\n')?;
    Ok(())
}

// Appends so many blanks.
fn put_blanks(text: &mut String, count: u32) -> Result<(), NoMemory> {
    for _blank in 0..count {
        text.push(' ')?;
    }
    Ok(())
}
