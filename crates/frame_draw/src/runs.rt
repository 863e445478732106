//! Runs of cells that stand elsewhere on the screen already: one copy from there stands for the copies of their cells.

ghost use Rattle.std.specs.Prelude.{◌≡◌, ◌+◌, ◌*◌, ◌<◌, ◌≤◌, length, OnOk};
ghost use Rattle.gate_model.specs.session.Steps.{IsScreenSize};
ghost use Rattle.frame_draw.specs.Leads.{Leads};
ghost use Rattle.frame_draw.specs.Matches.{IsMatch};

use crate::blanks::{FEWEST, count, strike};
use crate::strokes::copy_cells;
use crate::wanted::differ;
use gate_model::{Instr, Key, NoMemory, Shown};

/// How many pairs of neighbouring keys are remembered with the place where they stand, and how many numbers keys have.
const PAIRS: usize = 1_024;

/// Where the second of each pair of neighbouring keys stands, by the number of the pair; 0 where none does.
pub(crate) type Pairs = [usize; PAIRS];

/// Copies a run of cells to the place, where one is worth it, from where the same keys stand already. They are wanted no
/// more. Over layers on which every other place shows its key, these show theirs then too, and there are no more
/// instructions than there were copies.
pub(crate) fn copy_run(
    list: &mut Vec<Instr>,
    wanted: &mut [bool],
    now: &Shown,
    pairs: &Pairs,
    place: usize,
) -> Result<(), NoMemory>
    requires size { IsScreenSize now.now.cols now.now.rows }
    requires all { length wanted.now ≡ length now.now.keys }
    requires inside { place < length now.now.keys }
    ensures { OnOk result (Leads now.now list.old.items wanted.old list.new.items wanted.new) }
{
    let (keys, cols) = (now.as_slice(), now.cols() as usize);
    if !wanted[place] || place + 1 == keys.len() {
        return Ok(());
    }
    let pair = pair_of(number_of(keys[place]), number_of(keys[place + 1]));
    let from = pairs[pair].saturating_sub(1);
    let length = matching(keys, wanted, from, place, cols);
    if length < FEWEST || count(wanted, place, place + length) < FEWEST {
        return Ok(());
    }
    list.push(copy_cells(cols, from, place, length))?;
    strike(wanted, place, place + length);
    Ok(())
}

// How many cells from one place on show the keys of those from another on already, within a row each. In the first row it's
// never a whole one: who looks on takes a copy of the last row there for a scroll of the whole screen.
fn matching(keys: &[Key], wanted: &[bool], from: usize, to: usize, cols: usize) -> usize
    requires columns { 1 ≤ cols }
    requires few { cols ≤ 512 }
    requires small { length keys.now ≤ 131072 }
    requires all { length wanted.now ≡ length keys.now }
    requires inside { to < length keys.now }
    ensures { IsMatch keys.now wanted.now cols from to result }
{
    if keys.len() <= from {
        return 0;
    }
    let whole = if to < cols { cols - 1 } else { cols };
    let most = (cols - from % cols).min(cols - to % cols).min(whole);
    let room = most.min(keys.len() - from).min(keys.len() - to);
    for step in 0..room {
        if wanted[from + step] || differ(keys[from + step], keys[to + step]) {
            return step;
        }
    }
    room
}

/// Where pairs of neighbouring keys stand that aren't wanted. It's a guess: each is looked at again.
pub(crate) fn pairs_of(keys: &[Key], wanted: &[bool]) -> Pairs {
    let mut pairs = [0; PAIRS];
    let (mut last, mut was_wanted) = (0, true);
    for place in 0..keys.len().min(wanted.len()) {
        let number = number_of(keys[place]);
        if !was_wanted && !wanted[place] {
            pairs[pair_of(last, number)] = place;
        }
        (last, was_wanted) = (number, wanted[place]);
    }
    pairs
}

/// One pair more, of the key at the place and the one before, whose number is told; it answers that of the key.
pub(crate) fn add_pair(pairs: &mut Pairs, last: u16, key: Key, place: usize) -> u16 {
    let number = number_of(key);
    if 0 < place {
        pairs[pair_of(last, number)] = place;
    }
    number
}

// The number of a pair of keys, by theirs.
fn pair_of(first: u16, second: u16) -> usize
    ensures { result < 1024 }
{
    (first as usize * 31 + second as usize) % PAIRS
}

/// Some number of a key, from 0 to 1,023: where a key is remembered. Most keys of a screen have different ones.
pub fn number_of(key: Key) -> u16
    ensures { result < 1024 }
{
    let number = (key.face as usize % 65_536) * 8
        + key.ink as usize
        + key.paper as usize * 3
        + usize::from(key.under);
    (number % PAIRS) as u16
}
