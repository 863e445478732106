ghost use Rattle.std.specs.Prelude.{◌≡◌, ◌+◌, ◌-◌, ◌*◌, ◌<◌, ◌≤◌, ℕ, List, [], ◌∷◌, ◌++◌, Bool, length, slice_index, All, IsTrue, map};
ghost use Rattle.std.specs.List.{list_any, AllPairs};
ghost use Rattle.glyph_table.specs.declared.patch.Patch.{Patch};
ghost use Rattle.gate_model.specs.picture.Glyphs.{lit};
ghost use Rattle.gate_model.specs.picture.Lines.{bars, has_bars};
ghost use Rattle.glyph_table.specs.GlyphRects.{IsApart, IsInside, bar_patch, column_rects, columns_rects, covers, has_run, rects, run_end, run_rects};

use crate::Patch;
use crate::bars::{bar_at, bar_patch, has_bars, start_of};
use crate::tables::columns_of;
use std::marker::Model;

/// The most rectangles of a glyph: four runs in each of five columns, and the underline. No face has so many bars.
const MOST: usize = 21;

/// Rectangles of a glyph, at most 21; contracts see the list.
#[derive(Drop)]
pub struct Rects {
    held: [Patch; MOST],
    count: usize,
}

impl Model for Rects {
    ghost use Rattle.std.specs.Prelude.{◌≤◌, List};
    ghost use Rattle.std.proofs.Common.{take};
    ghost use Rattle.glyph_table.specs.declared.patch.Patch.{Patch};

    ghost Value = { List Patch };

    ghost view = { λ s. take s.count s.held };

    ghost invariant = { λ s. s.count ≤ 21 };
}

impl Rects {
    fn new() -> Rects
        ensures { result ≡ [] }
    {
        let none = Patch {
            x: 0,
            y: 0,
            width: 0,
            height: 0,
        };
        Rects {
            held: [none; MOST],
            count: 0,
        }
    }

    fn add(&mut self, patch: Patch)
        requires { length self.old < 21 }
        ensures { self.new ≡ self.old ++ patch ∷ [] }
    {
        self.held[self.count] = patch;
        self.count += 1;
    }

    // The runs of set bits that begin in a column, from the lowest bit on. To add a run's first bit carries through the
    // run, so the sum's lowest bit is the run's end.
    fn add_column(&mut self, columns: [u8; 5], i: usize, under: bool)
        requires room { length self.old + 4 ≤ 21 }
        requires inside { i < 5 }
        ensures { self.new ≡ self.old ++ column_rects i under columns (slice_index columns i) }
    {
        let mut left = u16::from(columns[i]);
        while left != 0 {
            let first = left.trailing_zeros() as u8;
            let carried = left + (1 << first);
            let end = carried.trailing_zeros() as u8;
            self.add_run(columns, i, first, end, under);
            left &= carried;
        }
    }

    // The run of the bits from `first` up to `end`, not included, where the column before hasn't got it: over all columns
    // that have it. It leaves pixel line 15 to an underline.
    #[tactic(auto, unfolding(crate::specs::GlyphRects::run_rects))]
    fn add_run(&mut self, columns: [u8; 5], i: usize, first: u8, end: u8, under: bool)
        requires room { length self.old + length (run_rects i under columns first end) ≤ 21 }
        requires inside { i < 5 }
        requires some { first < end }
        requires eight_bits { end ≤ 8 }
        ensures { self.new ≡ self.old ++ run_rects i under columns first end }
    {
        if 1 <= i && has_run(columns[i - 1], first, end) {
            return;
        }
        let cut = u8::from(under && end == 8);
        self.add(Patch {
            x: i as u8 + 1,
            y: 2 * first,
            width: (run_end(columns, i, first, end) - i) as u8,
            height: 2 * (end - first) - cut,
        });
    }

    // The rectangles of five columns.
    fn add_columns(&mut self, columns: [u8; 5], under: bool)
        requires { self.old ≡ [] }
        ensures { self.new ≡ columns_rects 5 under columns }
    {
        for i in 0..5 {
            self.add_column(columns, i, under);
        }
    }

    // The bars of a face that is made of them.
    fn add_bars(&mut self, face: char, under: bool)
        requires none { self.old ≡ [] }
        requires bars { IsTrue (has_bars face) }
        ensures { self.new ≡ map (bar_patch under) (bars face) }
    {
        let n = face as usize - 0x2500;
        for i in start_of(n)..start_of(n + 1) {
            self.add(bar_patch(bar_at(i), under));
        }
    }

    /// The rectangles, lent.
    pub fn as_slice(&self) -> &[Patch]
        ensures { result.now ≡ self.now }
    {
        &self.held[..self.count]
    }
}

// Whether a column has just this run: its bits are set, and neither the one before nor the one behind.
fn has_run(column: u8, first: u8, end: u8) -> bool
    requires some { first < end }
    requires eight_bits { end ≤ 8 }
    ensures { result ≡ has_run first end column }
{
    let length = end - first;
    // One bit to the left, so that the bit before the first one is seen.
    let seen = 2 * u16::from(column) / (1 << first) % (1 << (length + 2));
    seen == (1 << (length + 1)) - 2
}

// The first of the columns from `i` on that hasn't the run.
fn run_end(columns: [u8; 5], i: usize, first: u8, end: u8) -> usize
    requires inside { i < 5 }
    requires some { first < end }
    requires eight_bits { end ≤ 8 }
    ensures ends { result ≡ run_end (5 - i) first end columns i }
    ensures behind { i ≤ result }
    ensures few { result ≤ 5 }
{
    for j in i..5 {
        if !has_run(columns[j], first, end) {
            return j;
        }
    }
    5
}

/// The rectangles of a face: at most 21, inside the cell, no two of which have a pixel in common,
/// and which cover exactly the lit pixels (this project's own font).
pub fn rects_of(face: char, under: bool) -> Rects
    ensures listed { result ≡ rects face under }
    ensures cover { (x y : ℕ) → x < 8 → y < 16 → list_any (λ p. covers p x y) result ≡ lit face under x y }
    ensures apart { AllPairs IsApart result }
    ensures few { length result ≤ 21 }
    ensures inside { All IsInside result }
{
    let mut rects = Rects::new();
    if has_bars(face) {
        rects.add_bars(face, under);
    } else {
        rects.add_columns(columns_of(face), under);
    }
    if under {
        rects.add(Patch {
            x: 0,
            y: 15,
            width: 8,
            height: 1,
        });
    }
    rects
}
