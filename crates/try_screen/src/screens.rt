//! What a screen shows after bytes of the host, and what it reports.

ghost use Rattle.std.specs.Prelude.{IfSome};
ghost use Rattle.gate_model.specs.terminal.Controls.{HasFewParameters};

use anyhow::{Context, Result, bail};
use ecma_parser::Parser;
use gate_model::{Control, Faces, Shown};
use std::alloc::Global;
use try_words::{bytes_of, is_size, push_escaped, size};
use vt_screen::Screen;

// A screen of the start.
fn open(alloc: Global, cols: u16, rows: u16) -> Result<Screen> {
    open_with(alloc, Faces::Ascii, cols, rows)
}

// .. with a set of faces.
fn open_with(alloc: Global, faces: Faces, cols: u16, rows: u16) -> Result<Screen> {
    if !is_size(cols, rows) {
        bail!("no size");
    }
    Screen::with_faces(alloc, faces, cols, rows)
        .ok()
        .context("no memory")
}

// Applies the control functions of the bytes, and appends the reports.
fn apply(screen: &mut Screen, bytes: &[u8], reports: &mut Vec<u8>) -> Result<()> {
    apply_on(screen, &mut Parser::new(), bytes, reports)
}

// The same where the bytes go on.
fn apply_on(
    screen: &mut Screen,
    parser: &mut Parser,
    bytes: &[u8],
    reports: &mut Vec<u8>,
) -> Result<()> {
    for byte in bytes {
        let pair = parser.feed(*byte);
        apply_one(screen, pair.first, reports)?;
        apply_one(screen, pair.second, reports)?;
    }
    Ok(())
}

// Applies a control function, if there is one, and appends its report.
fn apply_one(screen: &mut Screen, control: Option<Control>, reports: &mut Vec<u8>) -> Result<()>
    requires { IfSome control HasFewParameters }
{
    if let Some(control) = control {
        reports.extend_from_slice(screen.apply(&control).as_slice())?;
    }
    Ok(())
}

// What the screen shows.
fn shown(screen: &Screen, alloc: Global) -> Result<Shown> {
    screen.shown(alloc).ok().context("no memory")
}

/// The rows with `.` for a blank and `<` and `>` for the halves of a wide character, the row and the column of the cursor, `p` where the wrap is pending, the
/// lines that were scrolled, if any, and the reports, if any.
pub fn seen(alloc: Global, input: &str) -> Result<String> {
    let (cols, rows, bytes) = size(input)?;
    let bytes = bytes_of(alloc, bytes)?;
    let mut screen = open(alloc, cols, rows)?;
    seen_after(&mut screen, alloc, &bytes)
}

/// The same on a screen with the larger set of faces.
pub fn seen_with_more(alloc: Global, input: &str) -> Result<String> {
    let (cols, rows, bytes) = size(input)?;
    let bytes = bytes_of(alloc, bytes)?;
    let mut screen = open_with(alloc, Faces::More, cols, rows)?;
    seen_after(&mut screen, alloc, &bytes)
}

// The same after the bytes.
fn seen_after(screen: &mut Screen, alloc: Global, bytes: &[u8]) -> Result<String> {
    let mut reports = Vec::new(alloc);
    apply(screen, bytes, &mut reports)?;
    seen_with(screen, alloc, &reports)
}

fn seen_with(screen: &mut Screen, alloc: Global, reports: &[u8]) -> Result<String> {
    let mut text = String::new(alloc);
    push_faces(&mut text, screen, alloc)?;
    push_position(&mut text, screen, alloc)?;
    push_reports(&mut text, screen.shift(), reports)?;
    Ok(text)
}

// Adds the lines that were scrolled, if any, and the reports, if any.
fn push_reports(text: &mut String, shift: u32, reports: &[u8]) -> Result<()> {
    if 0 < shift {
        write!(text, " +{shift}")?;
    }
    if !reports.is_empty() {
        text.push(' ')?;
        push_escaped(text, reports)?;
    }
    Ok(())
}

// Adds the faces of the rows.
fn push_faces(text: &mut String, screen: &Screen, alloc: Global) -> Result<()> {
    let shown = shown(screen, alloc)?;
    push_shown(text, &shown)
}

fn push_shown(text: &mut String, shown: &Shown) -> Result<()> {
    for y in 0..shown.rows() {
        if 0 < y {
            text.push('/')?;
        }
        for x in 0..shown.cols() {
            text.push(sign_of(shown.key(x, y).face))?;
        }
    }
    Ok(())
}

// What stands for a face: `.` for a blank, `<` and `>` for the halves of a wide character.
fn sign_of(face: char) -> char {
    match face {
        ' ' => '.',
        '\u{e000}' => '<',
        '\u{e001}' => '>',
        _ => face,
    }
}

// Adds where the cursor is, as the screen reports it, and `p` where the wrap is pending.
fn push_position(text: &mut String, screen: &mut Screen, alloc: Global) -> Result<()> {
    let (row, column) = position(screen, alloc)?;
    write!(text, " {row};{column}")?;
    if is_pending(screen, alloc, row, column)? {
        text.push('p')?;
    }
    Ok(())
}

// The row and the column of the cursor, counted from 1.
fn position(screen: &mut Screen, alloc: Global) -> Result<(u16, u16)> {
    let mut report = Vec::new(alloc);
    apply(screen, b"\x1b[6n", &mut report)?;
    position_in(&report)
}

fn position_in(report: &[u8]) -> Result<(u16, u16)> {
    let (row, column) = numbers_in(str::from_utf8(report)?).context("no position")?;
    let row = row.parse::<u16>()?;
    let column = column.parse::<u16>()?;
    Ok((row, column))
}

// The two numbers of a report of the cursor.
fn numbers_in(report: &str) -> Option<(&str, &str)> {
    let numbers = report.strip_prefix("\u{1b}[")?.strip_suffix("R")?;
    numbers.split_once(';')
}

// Whether the next character, `#`, wraps before it is printed: then it isn't seen at the cursor, or, on one
// column, something moves.
fn is_pending(screen: &Screen, alloc: Global, row: u16, column: u16) -> Result<bool> {
    let before = shown(screen, alloc)?;
    has_wrapped(
        &before,
        screen,
        alloc,
        (column.saturating_sub(1), row.saturating_sub(1)),
    )
}

fn has_wrapped(before: &Shown, screen: &Screen, alloc: Global, (x, y): (u16, u16)) -> Result<bool> {
    let after = shown_after(screen, alloc)?;
    let is_elsewhere = x < after.cols() && y < after.rows() && after.key(x, y).face != '#';
    Ok(is_elsewhere || before.cols() == 1 && moved(before, &after, y))
}

// What a copy shows after `#`.
fn shown_after(screen: &Screen, alloc: Global) -> Result<Shown> {
    let mut copy = screen.copy(alloc).ok().context("no memory")?;
    shown_with(&mut copy, alloc)
}

fn shown_with(screen: &mut Screen, alloc: Global) -> Result<Shown> {
    apply(screen, b"#", &mut Vec::new(alloc))?;
    shown(screen, alloc)
}

// Whether a face of the first column differs, but for this row.
fn moved(before: &Shown, after: &Shown, but: u16) -> bool {
    (0..before.rows()).any(|y| {
        y != but
            && y < after.rows()
            && 0 < before.cols()
            && 0 < after.cols()
            && before.key(0, y).face != after.key(0, y).face
    })
}

/// The same after parts of the bytes, each on the size that stands before it.
pub fn resized(alloc: Global, input: &str) -> Result<String> {
    let (cols, rows, _bytes) = size(input)?;
    let mut screen = open(alloc, cols, rows)?;
    resized_after(&mut screen, alloc, input)
}

fn resized_after(screen: &mut Screen, alloc: Global, parts: &str) -> Result<String> {
    let reports = reports_of_parts(screen, alloc, parts)?;
    seen_with(screen, alloc, &reports)
}

// Gives the screen the parts, and answers the reports.
fn reports_of_parts(screen: &mut Screen, alloc: Global, parts: &str) -> Result<Vec<u8>> {
    let mut parser = Parser::new();
    let mut reports = Vec::new(alloc);
    for part in parts.split(" | ") {
        let (cols, rows, bytes) = size(part)?;
        turn(screen, alloc, cols, rows)?;
        apply_on(screen, &mut parser, &bytes_of(alloc, bytes)?, &mut reports)?;
    }
    Ok(reports)
}

// Gives the screen another size.
fn turn(screen: &mut Screen, alloc: Global, cols: u16, rows: u16) -> Result<()> {
    if !is_size(cols, rows) {
        bail!("no size");
    }
    screen.resize(alloc, cols, rows).ok().context("no memory")
}

/// The ink, the paper and the underline of the first cell.
pub fn look(alloc: Global, input: &str) -> Result<String> {
    let bytes = bytes_of(alloc, input)?;
    let mut screen = open(alloc, 2, 1)?;
    look_after(&mut screen, alloc, &bytes)
}

fn look_after(screen: &mut Screen, alloc: Global, bytes: &[u8]) -> Result<String> {
    apply(screen, bytes, &mut Vec::new(alloc))?;
    let shown = shown(screen, alloc)?;
    look_of(&shown, alloc)
}

fn look_of(shown: &Shown, alloc: Global) -> Result<String> {
    if shown.cols() == 0 || shown.rows() == 0 {
        bail!("no cell");
    }
    let key = shown.key(0, 0);
    let under = if key.under { " underlined" } else { "" };
    Ok(format!(in alloc; "{} on {}{under}", key.ink, key.paper)?)
}

/// The reports.
pub fn reports(alloc: Global, input: &str) -> Result<String> {
    let (cols, rows, bytes) = size(input)?;
    let bytes = bytes_of(alloc, bytes)?;
    let mut screen = open(alloc, cols, rows)?;
    reports_after(&mut screen, alloc, &bytes)
}

fn reports_after(screen: &mut Screen, alloc: Global, bytes: &[u8]) -> Result<String> {
    let mut reports = Vec::new(alloc);
    apply(screen, bytes, &mut reports)?;
    let mut text = String::new(alloc);
    push_escaped(&mut text, &reports)?;
    Ok(text)
}

/// The lines that each part of the bytes scrolls, where the count begins anew after each.
pub fn shifts(alloc: Global, input: &str) -> Result<String> {
    let (cols, rows, parts) = size(input)?;
    let mut screen = open(alloc, cols, rows)?;
    shifts_after(&mut screen, alloc, parts)
}

fn shifts_after(screen: &mut Screen, alloc: Global, parts: &str) -> Result<String> {
    let mut text = String::new(alloc);
    for part in parts.split('/') {
        let bytes = bytes_of(alloc, part.trim())?;
        push_shift(&mut text, screen, alloc, &bytes)?;
    }
    text.push_str("the end")?;
    Ok(text)
}

// Adds the lines that the bytes scroll, from none.
fn push_shift(text: &mut String, screen: &mut Screen, alloc: Global, bytes: &[u8]) -> Result<()> {
    screen.clear_shift();
    write!(text, "{}", screen.shift())?;
    apply(screen, bytes, &mut Vec::new(alloc))?;
    write!(text, " to {}, ", screen.shift())?;
    Ok(())
}

/// Whether the cursor keys send what applications ask for.
pub fn cursor_keys(alloc: Global, input: &str) -> Result<String> {
    let bytes = bytes_of(alloc, input)?;
    let mut screen = open(alloc, 2, 1)?;
    let mode = mode_after(&mut screen, alloc, &bytes)?;
    Ok(mode.to_string(alloc)?)
}

fn mode_after(screen: &mut Screen, alloc: Global, bytes: &[u8]) -> Result<&'static str> {
    apply(screen, bytes, &mut Vec::new(alloc))?;
    Ok(mode_of(screen))
}

// The name of the cursor mode.
fn mode_of(screen: &Screen) -> &'static str {
    if screen.cursor_mode() {
        "application"
    } else {
        "normal"
    }
}

/// What is seen on a copy that was made after the first part of the bytes and is given the second, and what
/// is seen on the screen itself then.
pub fn copies(alloc: Global, input: &str) -> Result<String> {
    let (cols, rows, parts) = size(input)?;
    let (first, second) = parts.split_once('/').context("no second part")?;
    let first = bytes_of(alloc, first.trim())?;
    let second = bytes_of(alloc, second.trim())?;
    let mut screen = open(alloc, cols, rows)?;
    copies_after(&mut screen, alloc, &first, &second)
}

fn copies_after(screen: &mut Screen, alloc: Global, first: &[u8], second: &[u8]) -> Result<String> {
    apply(screen, first, &mut Vec::new(alloc))?;
    let mut text = String::new(alloc);
    push_copy(&mut text, screen, alloc, second)?;
    text.push_str(" and ")?;
    push_faces(&mut text, screen, alloc)?;
    Ok(text)
}

// Adds what a copy shows, its lines that were scrolled and its cursor mode, after more bytes.
fn push_copy(text: &mut String, screen: &Screen, alloc: Global, bytes: &[u8]) -> Result<()> {
    let mut copy = screen.copy(alloc).ok().context("no memory")?;
    push_after(text, &mut copy, alloc, bytes)
}

fn push_after(text: &mut String, copy: &mut Screen, alloc: Global, bytes: &[u8]) -> Result<()> {
    apply(copy, bytes, &mut Vec::new(alloc))?;
    push_faces(text, copy, alloc)?;
    write!(text, " +{} {}", copy.shift(), mode_of(copy))?;
    Ok(())
}
