//! The keys that were seen, and the places that changed, each counted plainly.

ghost use Rattle.std.specs.Prelude.{◌<◌};

use anyhow::Result;
use gate_model::{Key, Shown};
use std::alloc::Global;

/// How many keys there may be: 98 faces, underlined or not, in 256 inks on 256 papers.
const KEYS: usize = 98 * 2 * 256 * 256;

/// Which keys were seen.
#[derive(Drop)]
pub struct Seen {
    flags: Vec<bool>,
    count: usize,
}

impl Seen {
    /// None.
    pub fn new(alloc: Global) -> Result<Seen> {
        Ok(Seen {
            flags: vec![in alloc; false; KEYS]?,
            count: 0,
        })
    }

    /// How many.
    pub fn count(&self) -> usize {
        self.count
    }

    /// Adds those of a screen, and answers how many of them are new.
    pub fn add(&mut self, shown: &Shown) -> usize {
        let mut fresh: usize = 0;
        for key in shown.as_slice() {
            if self.add_key(*key) {
                fresh = fresh.saturating_add(1);
            }
        }
        self.count = self.count.saturating_add(fresh);
        fresh
    }

    // Adds a key; whether it is new.
    fn add_key(&mut self, key: Key) -> bool {
        match self.flags.get_mut(place_of(key)) {
            Some(flag) if !*flag => {
                *flag = true;
                true
            }
            _ => false,
        }
    }
}

// A number for each key.
fn place_of(key: Key) -> usize {
    let face = match key.face {
        ' '..='~' => key.face as usize - ' ' as usize,
        '\u{e000}' => 96,
        '\u{e001}' => 97,
        _ => 95,
    };
    let look = usize::from(key.under) * 65_536 + key.ink as usize * 256 + key.paper as usize;
    face * 131_072 + look
}

/// How many places of the new screen differ from the old one scrolled up by `shift` lines, where a line so
/// far below is left of it, and from the same line of it otherwise.
pub fn changed(old: &Shown, new: &Shown, shift: u32) -> usize {
    let (before, after) = (old.as_slice(), new.as_slice());
    let below = shift as usize * new.cols() as usize;
    let mut count: usize = 0;
    for (place, key) in after.iter().enumerate() {
        let moved = before.get(place.saturating_add(below));
        let old_key = moved.or(before.get(place));
        if old_key != Some(key) {
            count = count.saturating_add(1);
        }
    }
    count
}

/// How many places of the new screen the old one, of another size, hasn't or shows otherwise.
pub fn differing(old: &Shown, new: &Shown) -> usize {
    let mut count: usize = 0;
    for y in 0..new.rows() {
        count = count.saturating_add(differing_in_row(old, new, y));
    }
    count
}

fn differing_in_row(old: &Shown, new: &Shown, y: u16) -> usize
    requires { y < new.now.rows }
{
    let mut count: usize = 0;
    for x in 0..new.cols() {
        let stays = x < old.cols() && y < old.rows() && old.key(x, y) == new.key(x, y);
        count = count.saturating_add(usize::from(!stays));
    }
    count
}
