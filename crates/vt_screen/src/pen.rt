ghost use Rattle.std.specs.Prelude.{◌≡◌, nat_le, if◌then◌else◌, Some, None};
ghost use Rattle.gate_model.specs.terminal.Pens.{chosen_index, colour_size, drawn_with, is_colour, pen_ink, pen_paper, styled, styled_by, with_colour};
ghost use Rattle.gate_model.specs.terminal.Terminal.{plain};

use crate::arguments::choice;
use gate_model::{Cell, Half};
use std::marker::Model;

// The ink and the paper of a pen that names none.
const PLAIN_INK: u8 = 7;

const PLAIN_PAPER: u8 = 0;

/// How characters are printed: an ink and a paper of the palette, or none.
#[derive(Clone, Copy)]
pub(crate) struct Pen {
    bold: bool,
    underline: bool,
    reverse: bool,
    ink: Option<u8>,
    paper: Option<u8>,
}

impl Model for Pen {
    ghost use Rattle.gate_model.specs.terminal.Terminal as terminal;

    ghost Value = { terminal.Pen };

    ghost view = { λ p. record { bold = p.bold; underline = p.underline; reverse = p.reverse; ink = p.ink; paper = p.paper } };

    ghost inverse = { λ v. record { bold = v.bold; underline = v.underline; reverse = v.reverse; ink = v.ink; paper = v.paper } };
}

impl Pen {
    // Neither bold nor underlined nor reversed, and without an ink and a paper.
    pub(crate) fn plain() -> Pen
        ensures { result ≡ plain }
    {
        Pen {
            bold: false,
            underline: false,
            reverse: false,
            ink: None,
            paper: None,
        }
    }

    // SGR: each number in order.
    pub(crate) fn style(&mut self, numbers: &[u16])
        ensures { self.new ≡ styled self.old numbers.now }
    {
        let mut skipped = 0;
        for (i, number) in numbers.iter().enumerate() {
            if skipped > 0 {
                skipped -= 1;
            } else if is_colour(*number) {
                let rest = &numbers[i + 1..];
                self.choose(*number, chosen_index(rest));
                skipped = colour_size(rest);
            } else {
                self.set(choice(*number));
            }
        }
    }

    // SGR 38 or 48 with the index of a colour, if there is one.
    fn choose(&mut self, number: u16, index: Option<u8>)
        ensures { self.new ≡ with_colour number index self.old }
    {
        let Some(index) = index else { return };
        if number == 38 {
            self.ink = Some(index);
        } else {
            self.paper = Some(index);
        }
    }

    // One number of SGR.
    fn set(&mut self, number: u16)
        ensures { self.new ≡ styled_by number self.old }
    {
        match number {
            0 => *self = Pen::plain(),
            1 => self.bold = true,
            4 => self.underline = true,
            7 => self.reverse = true,
            22 => self.bold = false,
            24 => self.underline = false,
            27 => self.reverse = false,
            30..=37 => self.ink = Some((number - 30) as u8),
            39 => self.ink = None,
            40..=47 => self.paper = Some((number - 40) as u8),
            49 => self.paper = None,
            _ => {}
        }
    }

    // The ink before it is reversed: its own or the plain one, and 8 more when it is bold and of the first eight.
    fn ink(self) -> u8
        ensures { result ≡ pen_ink self }
    {
        let own = self.ink.unwrap_or(PLAIN_INK);
        own + if self.bold && own < 8 { 8 } else { 0 }
    }

    // A character in the pen.
    pub(crate) fn draw(self, ch: char) -> Cell
        ensures { result ≡ drawn_with self ch }
    {
        let ink = self.ink();
        let paper = self.paper.unwrap_or(PLAIN_PAPER);
        Cell {
            ch,
            ink: if self.reverse { paper } else { ink },
            paper: if self.reverse { ink } else { paper },
            under: self.underline,
            half: Half::Whole,
        }
    }
}

// 38 chooses an ink and 48 a paper.
fn is_colour(number: u16) -> bool
    ensures { result ≡ is_colour number }
{
    number == 38 || number == 48
}

// How many numbers say which: 5 and one more, 2 and three more, or none.
fn colour_size(rest: &[u16]) -> u8
    ensures { result ≡ colour_size rest.now }
{
    match rest {
        [5, ..] => 2,
        [2, ..] => 4,
        _ => 0,
    }
}

// The index that they name: after 5 the next one, where the palette has it.
fn chosen_index(rest: &[u16]) -> Option<u8>
    ensures { result ≡ chosen_index rest.now }
{
    match rest {
        [5, index, ..] => within_palette(choice(*index)),
        _ => None,
    }
}

// An index of the palette, or none.
fn within_palette(index: u16) -> Option<u8>
    ensures { result ≡ (if nat_le index 255 then Some index else None) }
{
    if index <= 255 {
        Some(index as u8)
    } else {
        None
    }
}
