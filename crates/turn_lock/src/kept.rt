//! What a lock keeps, and the type parameter by which a caller names an entry.
ghost use Rattle.std.specs.Prelude.{◌≡◌, ◌<◌, ◌^◌, ℕ, List, Option, length};

use std::marker::Brand;

/// A value that stands for lists of entries, as a desk stands for the history that led to it. It may
/// stand for several lists (this project's own rule).
pub trait Kept {
    /// What the lists are lists of. No entry is made or read.
    type Entry;

    // The value stands for the list, whose newest entry comes first.
    ghost stands: { Self → List Self.Entry → Type 0 };

    // The mark of an entry, or none. Where a pass has a mark, every entry of that mark is the pass's own.
    ghost mark: { Self.Entry → Option ℕ };

    /// The number of entries of each list that the value stands for.
    fn count(&self) -> u64
        ensures { (h : List Self.Entry) → stands self.now h → result ≡ length h };

    // Each list that a value stands for has fewer than 2^62 entries, so that their number never wraps.
    ghost few: { (v : Self) (h : List Self.Entry) → stands v h → length h < 2 ^ 62 };
}

/// Names, for contracts alone, the entry that a turn adds, by what is true of it. At `Brand` the
/// caller's proof picks that, and else it is any entry.
pub trait Adds<E> {
    ghost adds: { E → Type 0 };
}

impl<E> Adds<E> for Brand {
    ghost adds = { λ _. Unit {0} };
}
