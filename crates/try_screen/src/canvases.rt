//! Canvases on which instructions are played.

use anyhow::{Context, Result, bail};
use canvas::{Canvas, Dot};
use gate_model::Instr;
use std::alloc::Global;
use try_canvases::play;
use try_words::first_word;

/// The letters of layer 0 after the steps, which stand apart by `; `, row by row; a dot for a clear pixel.
pub fn drawn(alloc: Global, input: &str) -> Result<String> {
    let mut canvas = Canvas::new(alloc);
    play_steps(&mut canvas, alloc, input)?;
    text_of(alloc, &canvas)
}

/// What a pixel shows after steps: those, `at`, and the layer, x and y; and the size of the layer.
pub fn dot(alloc: Global, input: &str) -> Result<String> {
    let (steps, place) = input.split_once("at ").context("no place")?;
    let mut canvas = Canvas::new(alloc);
    play_steps(&mut canvas, alloc, steps.trim())?;
    let numbers = integers(alloc, place)?;
    let [layer, x, y] = numbers.as_slice() else {
        bail!("no place");
    };
    let layer = i32::try_from(*layer)?;
    let dot = canvas.pixel(layer, u32::try_from(*x)?, u32::try_from(*y)?);
    let (width, height) = canvas.layer_size(layer);
    let seen = match dot {
        Dot::Outside => "outside",
        Dot::Clear => "clear",
        Dot::Painted(_) => "painted",
    };
    let letter = letter_of(dot);
    Ok(format!(in alloc; "{seen} {letter} of {width} by {height}")?)
}

/// Whether two canvases are the same after the steps on each side of `|`.
pub fn same(alloc: Global, input: &str) -> Result<String> {
    let (left, right) = input.split_once('|').context("no second canvas")?;
    let mut canvas = Canvas::new(alloc);
    play_steps(&mut canvas, alloc, left.trim())?;
    let is_same = same_after(&canvas, alloc, right.trim())?;
    Ok(if is_same { "same" } else { "differ" }.to_string(alloc)?)
}

// Whether the canvas is the same as one after the steps, from both sides.
fn same_after(canvas: &Canvas, alloc: Global, steps: &str) -> Result<bool> {
    let mut other = Canvas::new(alloc);
    play_steps(&mut other, alloc, steps)?;
    if canvas.same(&other) != other.same(canvas) {
        bail!("the same from one side alone");
    }
    Ok(canvas.same(&other))
}

fn play_steps(canvas: &mut Canvas, alloc: Global, steps: &str) -> Result<()> {
    for step in steps.split("; ") {
        let (name, rest) = first_word(step);
        if name == "draw" {
            draw(canvas, rest)?;
        } else if !name.is_empty() {
            let numbers = integers(alloc, rest)?;
            play(canvas, &instr_of(name, &numbers)?)?;
        }
    }
    Ok(())
}

fn integers(alloc: Global, text: &str) -> Result<Vec<i64>> {
    let mut numbers = Vec::new(alloc);
    for word in text.split_whitespace() {
        numbers.push(word.parse::<i64>().context("no number")?)?;
    }
    Ok(numbers)
}

// The instruction of a step. Colours are the numbers of letters.
fn instr_of(name: &str, numbers: &[i64]) -> Result<Instr> {
    Ok(match (name, numbers) {
        ("size", [layer, width, height]) => Instr::Size {
            layer: i32::try_from(*layer)?,
            width: u32::try_from(*width)?,
            height: u32::try_from(*height)?,
        },
        ("rect", [layer, x, y, width, height]) => Instr::Rect {
            layer: i32::try_from(*layer)?,
            x: u32::try_from(*x)?,
            y: u32::try_from(*y)?,
            width: u32::try_from(*width)?,
            height: u32::try_from(*height)?,
        },
        ("fill", [layer, letter]) => fill(i32::try_from(*layer)?, u8::try_from(*letter)?),
        ("copy", [from, x, y, width, height, to_x, to_y]) => Instr::Copy {
            from: i32::try_from(*from)?,
            x: u32::try_from(*x)?,
            y: u32::try_from(*y)?,
            width: u32::try_from(*width)?,
            height: u32::try_from(*height)?,
            to: 0,
            to_x: u32::try_from(*to_x)?,
            to_y: u32::try_from(*to_y)?,
        },
        ("sync", []) => Instr::Sync { stamp: 1 },
        ("error", []) => Instr::Error { status: 523 },
        ("disconnect", []) => Instr::Disconnect,
        _ => bail!("no step"),
    })
}

fn fill(layer: i32, letter: u8) -> Instr {
    Instr::Cfill {
        layer,
        red: letter,
        green: 1,
        blue: 2,
    }
}

// Sizes a layer and draws a letter in each pixel: the layer, the width and the letters; a dot stays clear.
fn draw(canvas: &mut Canvas, words: &str) -> Result<()> {
    let (layer, rest) = first_word(words);
    let (width, letters) = first_word(rest);
    let (layer, width) = (layer.parse::<i32>()?, width.parse::<u32>()?);
    if width == 0 || 64 < letters.len() {
        bail!("no drawing");
    }
    let size = Instr::Size {
        layer,
        width,
        height: letters.len() as u32 / width,
    };
    play(canvas, &size)?;
    for (place, letter) in letters.as_bytes().iter().enumerate() {
        if *letter != b'.' {
            put(
                canvas,
                layer,
                (place as u32 % width, place as u32 / width),
                *letter,
            )?;
        }
    }
    Ok(())
}

// Draws a letter in a pixel.
fn put(canvas: &mut Canvas, layer: i32, (x, y): (u32, u32), letter: u8) -> Result<()> {
    let pixel = Instr::Rect {
        layer,
        x,
        y,
        width: 1,
        height: 1,
    };
    play(canvas, &pixel)?;
    play(canvas, &fill(layer, letter))
}

// The letters of layer 0, row by row.
fn text_of(alloc: Global, canvas: &Canvas) -> Result<String> {
    let (width, height) = canvas.layer_size(0);
    let mut text = String::new(alloc);
    for y in 0..height {
        for x in 0..width {
            text.push(letter_of(canvas.pixel(0, x, y)))?;
        }
        text.push('|')?;
    }
    Ok(text)
}

fn letter_of(dot: Dot) -> char {
    match dot {
        Dot::Outside => '?',
        Dot::Clear => '.',
        Dot::Painted(colour) => char::from(colour.red),
    }
}
