//! The pictures of faces.

ghost use Rattle.std.specs.Prelude.{◌<◌};

use anyhow::{Context, Result, bail};
use gate_model::more_faces::number_of;
use glyph_table::{lit, rects_of};
use std::alloc::Global;
use try_words::push_hexadecimal;

// A picture: of each pixel line from above a byte, whose highest bit is the left pixel.
type Picture = [u8; 16];

fn picture_of(face: char, under: bool) -> Picture {
    let mut lines = [0; 16];
    for y in 0..16 {
        lines[y] = line_of(face, under, y as u8);
    }
    lines
}

fn line_of(face: char, under: bool, y: u8) -> u8
    requires { y < 16 }
{
    let mut bits = 0u8;
    for x in 0..8 {
        bits = bits << 1 | u8::from(lit(face, under, x, y));
    }
    bits
}

/// The picture of a character's face, two hexadecimal digits a pixel line, and how many rectangles draw it; `_` behind the
/// character underlines it.
pub fn picture(alloc: Global, input: &str) -> Result<String> {
    let mut chars = input.chars();
    let face = chars.next().context("no face")?;
    let under = chars.next() == Some('_');
    let mut text = String::new(alloc);
    push_hexadecimal(&mut text, &picture_of(face, under))?;
    write!(text, " {}", rects_of(face, under).as_slice().len())?;
    Ok(text)
}

// Whether a character of one place has a face of its own, in the larger set.
fn has_face(face: char) -> bool {
    matches!(face, ' '..='~' | '\u{2500}'..='\u{259f}') || number_of(face).is_some()
}

// Every face: those of characters, the box, and those of the halves of wide characters.
fn faces(alloc: Global) -> Result<Vec<char>> {
    let mut faces = Vec::new(alloc);
    for code in 0x20..0x10000 {
        if let Some(face) = char::from_u32(code) {
            if has_face(face) || matches!(face, '\u{fffd}' | '\u{e000}' | '\u{e001}') {
                faces.push(face)?;
            }
        }
    }
    Ok(faces)
}

/// How many faces there are, how many pictures of them differ from all before them, and the most rectangles of one; `_`
/// underlines all of them.
pub fn alphabet(alloc: Global, input: &str) -> Result<String> {
    let under = match input {
        "plain" => false,
        "_" => true,
        _ => bail!("no look"),
    };
    let faces = faces(alloc)?;
    let mut pictures: Vec<Picture> = Vec::new(alloc);
    let mut most = 0;
    for face in faces.as_slice() {
        let picture = picture_of(*face, under);
        most = rects_of(*face, under).as_slice().len().max(most);
        if !pictures.as_slice().contains(&picture) {
            pictures.push(picture)?;
        }
    }
    Ok(format!(in alloc; "{} {} {most}", faces.len(), pictures.len())?)
}
