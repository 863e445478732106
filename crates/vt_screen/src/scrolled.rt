//! How many lines the whole screen has scrolled up.

ghost use Rattle.std.specs.Prelude.{◌≡◌, ◌+◌, ◌-◌, ◌^◌, ◌∷◌, [], List, ℕ, min, sum};

use ghost_list::{GhostList, Lists};
use std::marker::{Brand, Model};

/// A number of lines, which contracts see whole and which is counted up to 2^32 - 1.
#[derive(Drop)]
pub(crate) struct Scrolled {
    counted: u32,
    each: GhostList<u32>,
}

impl Model for Scrolled {
    ghost use Rattle.std.specs.Prelude.{◌≡◌, ◌-◌, ◌^◌, ℕ, min, sum};

    ghost Value = { ℕ };

    ghost view = { λ s. sum s.each.items };

    ghost invariant = { λ s. s.counted ≡ min (sum s.each.items) (2 ^ 32 - 1) };
}

impl Scrolled {
    /// No lines.
    pub(crate) fn none() -> Scrolled
        ensures { result ≡ 0 }
    {
        Scrolled {
            counted: 0,
            each: nothing(),
        }
    }

    /// So many lines more.
    pub(crate) fn more(&self, lines: u16) -> Scrolled
        ensures { result ≡ self.now + lines }
    {
        let lines = lines as u32;
        Scrolled {
            counted: self.counted.saturating_add(lines),
            each: with(&self.each, lines),
        }
    }

    /// The same number.
    pub(crate) fn copy(&self) -> Scrolled
        ensures { result ≡ self.now }
    {
        Scrolled {
            counted: self.counted,
            each: again(&self.each),
        }
    }

    /// The lesser of the number and 2^32 - 1.
    pub(crate) fn counted(&self) -> u32
        ensures { result ≡ min self.now (2 ^ 32 - 1) }
    {
        self.counted
    }
}

fn nothing() -> GhostList<u32>
    ensures { result.items ≡ [] }
{
    named::<Brand, _>(&())
}

fn with(each: &GhostList<u32>, lines: u32) -> GhostList<u32>
    ensures { result.items ≡ lines ∷ each.now.items }
{
    named::<Brand, _>(&(each, lines))
}

fn again(each: &GhostList<u32>) -> GhostList<u32>
    ensures { result.items ≡ each.now.items }
{
    named::<Brand, _>(&(each,))
}

// The list that the parameter names, by what a caller's proof is told.
fn named<L: Lists<u32>, A>(told: &A) -> GhostList<u32>
    ensures { result.items ≡ L.list }
{
    let _ = told;
    GhostList::of::<L>()
}
