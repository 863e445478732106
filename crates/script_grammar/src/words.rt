//! The words of the program, read by hand.

ghost use Rattle.std.specs.Prelude.{◌≡◌, ◌^◌, ◌-◌, map, string_bytes, IfSome};
ghost use Rattle.gate_model.specs.session.Steps.{IsScreenSize};
ghost use Rattle.script_grammar.specs.Numbers.{number_up_to};
ghost use Rattle.script_grammar.specs.Words.{IsForm, IsTextForm, counted, drawing, form_of, loading, of_text, playing, playing_at, size_of, sized};

use crate::form::Form;
use crate::numbers::{number, number_of_64_bits};
use crate::play_form::PlayForm;
use crate::size::Size;
use crate::text_form::TextForm;

/// The most entries of a session.
const MOST_ENTRIES: u64 = 1 << 40;

/// The most rounds of a load (this project's own rule).
const MOST_ROUNDS: u128 = 1_000_000;

/// The form of the words, if they are of one: `draw COLS ROWS`, `script`, `script ENTRIES`, `load SEED ROUNDS`, `play
/// info`, `play at STAMP`, `play keys` or `clip`. Numbers are of 1 to 20 decimal digits: 1 to 512 columns, 1 to 256
/// rows, at most 8,192 cells, 1 to 2^40 entries (2^40 where none is given), a seed and a stamp below 2^64, 0 to
/// 1,000,000 rounds.
pub fn form_of(words: &[String]) -> Option<Form>
    ensures exact { result ≡ form_of (map string_bytes words.now) }
    ensures in_range { IfSome result IsForm }
{
    match words {
        [name] if name.as_str() == "script" => Some(Form::Text(TextForm::Script(MOST_ENTRIES))),
        [name] if name.as_str() == "clip" => Some(Form::Clip),
        [name, entries] if name.as_str() == "script" => of_text(script(number(entries.as_bytes()))),
        [name, told] if name.as_str() == "play" => play(told.as_str()),
        [name, cols, rows] if name.as_str() == "draw" => {
            of_text(draw(size_of(cols.as_bytes(), rows.as_bytes())))
        }
        [name, seed, rounds] if name.as_str() == "load" => {
            load(
                number_of_64_bits(seed.as_bytes()),
                number(rounds.as_bytes()),
            )
        }
        [name, told, stamp] if name.as_str() == "play" => {
            play_at(told.as_str(), number_of_64_bits(stamp.as_bytes()))
        }
        _ => None,
    }
}

// The form `play` with one word more.
fn play(told: &str) -> Option<Form>
    ensures exact { result ≡ playing told.now }
    ensures in_range { IfSome result IsForm }
{
    if told == "info" {
        Some(Form::Play(PlayForm::Info))
    } else if told == "keys" {
        Some(Form::Play(PlayForm::Keys))
    } else {
        None
    }
}

// The form `play` with a word and a stamp.
fn play_at(told: &str, stamp: Option<u64>) -> Option<Form>
    ensures exact { result ≡ playing_at told.now stamp }
    ensures in_range { IfSome result IsForm }
{
    let stamp = stamp?;
    if told == "at" {
        Some(Form::Play(PlayForm::At(stamp)))
    } else {
        None
    }
}

// The form whose lines the input makes.
fn of_text(form: Option<TextForm>) -> Option<Form>
    requires { IfSome form IsTextForm }
    ensures exact { result ≡ of_text form }
    ensures in_range { IfSome result IsForm }
{
    Some(Form::Text(form?))
}

// The form `load`.
fn load(seed: Option<u64>, rounds: Option<u128>) -> Option<Form>
    ensures exact { result ≡ loading seed rounds }
    ensures in_range { IfSome result IsForm }
{
    let (seed, rounds) = (seed?, rounds?);
    if rounds <= MOST_ROUNDS {
        Some(Form::Load(seed, rounds as u32))
    } else {
        None
    }
}

/// The size that two words give, where it is one of a screen that the commands open: 1 to 512 columns, 1
/// to 256 rows, and at most 8,192 cells.
pub(crate) fn size_of(cols: &[u8], rows: &[u8]) -> Option<Size>
    ensures exact { result ≡ size_of cols.now rows.now }
    ensures in_range { IfSome result (λ s. IsScreenSize s.cols s.rows) }
{
    sized(number(cols), number(rows))
}

// The form `draw`.
fn draw(size: Option<Size>) -> Option<TextForm>
    requires { IfSome size (λ s. IsScreenSize s.cols s.rows) }
    ensures exact { result ≡ drawing size }
    ensures in_range { IfSome result IsTextForm }
{
    Some(TextForm::Draw(size?))
}

// The form `script`, where its session may have so many entries.
fn script(entries: Option<u128>) -> Option<TextForm>
    ensures exact { result ≡ counted entries }
    ensures in_range { IfSome result IsTextForm }
{
    let entries = u64::try_from(entries?).ok()?;
    if 1 <= entries && entries <= MOST_ENTRIES {
        Some(TextForm::Script(entries))
    } else {
        None
    }
}

// The size, where both words were numbers and the screen is one that the commands open.
fn sized(cols: Option<u128>, rows: Option<u128>) -> Option<Size>
    ensures exact { result ≡ sized cols rows }
    ensures in_range { IfSome result (λ s. IsScreenSize s.cols s.rows) }
{
    let cols = u16::try_from(cols?).ok()?;
    let rows = u16::try_from(rows?).ok()?;
    let in_range = (1..=512).contains(&cols) && (1..=256).contains(&rows);
    if in_range && cols as u32 * rows as u32 <= 8192 {
        Some(Size { cols, rows })
    } else {
        None
    }
}
