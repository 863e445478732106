//! What a screen shows.

ghost use Rattle.std.specs.Prelude.{◌≡◌, ◌+◌, ◌*◌, ◌<◌, ◌++◌, IfOk, map, length};
ghost use Rattle.gate_model.specs.terminal.Cells.{rest_of_row};
ghost use Rattle.gate_model.specs.terminal.Screens.{exchanged, face_of, key_of, more_face, shown, whole_face};

use crate::state::State;
use gate_model::more_faces::number_of;
use gate_model::{Cell, Faces, Half, Key, NoMemory, Shown};
use std::alloc::Global;

// The faces of the halves of a character that takes two places.
const LEFT_FACE: char = '\u{e000}';

const RIGHT_FACE: char = '\u{e001}';

impl State {
    // The key of each place, with ink and paper exchanged at a visible cursor. Refused for want of memory alone.
    pub(crate) fn shown(&self, alloc: Global) -> Result<Shown, NoMemory>
        ensures { IfOk result (λ s. s ≡ shown self.now) }
    {
        let mut keys = self.keys(alloc)?;
        if self.modes.visible {
            let cursor = self.y as usize * self.columns as usize + self.x as usize;
            keys[cursor] = exchange(keys[cursor]);
        }
        Ok(Shown::new(self.columns, self.rows, keys))
    }

    // The key of each cell, row by row.
    fn keys(&self, alloc: Global) -> Result<Vec<Key>, NoMemory>
        ensures { IfOk result (λ v. v.items ≡ map (key_of self.now.faces) self.now.grid.cells) }
    {
        let count = self.rows as usize * self.columns as usize;
        let mut keys = Vec::with_capacity(alloc, count)?;
        for y in 0..self.rows {
            self.push_row(y, &mut keys)?;
        }
        Ok(keys)
    }

    // Appends the keys of row `y`.
    fn push_row(&self, y: u16, keys: &mut Vec<Key>) -> Result<(), NoMemory>
        requires { y < self.now.grid.rows }
        ensures { IfOk result (λ _. keys.new.items ≡ keys.old.items ++ map (key_of self.now.faces) (rest_of_row 0 y self.now.grid)) }
    {
        for x in 0..self.columns {
            keys.push(key_of(self.faces, self.grid.cell(x, y)))?;
        }
        Ok(())
    }
}

// The key of a cell.
fn key_of(faces: Faces, cell: Cell) -> Key
    ensures { result ≡ key_of faces cell }
{
    Key {
        face: face_of(faces, cell.half, cell.ch),
        under: cell.under,
        ink: cell.ink,
        paper: cell.paper,
    }
}

// The face of a cell: the halves of a character have their own.
fn face_of(faces: Faces, half: Half, ch: char) -> char
    ensures { result ≡ face_of faces half ch }
{
    match half {
        Half::Whole => whole_face(faces, ch),
        Half::Left => LEFT_FACE,
        Half::Right => RIGHT_FACE,
    }
}

// The face of a character of one place: itself where the set has it.
fn whole_face(faces: Faces, ch: char) -> char
    ensures { result ≡ whole_face faces ch }
{
    match (faces, ch) {
        (_, ' '..='~') => ch,
        (Faces::Ascii, _) => char::REPLACEMENT_CHARACTER,
        (Faces::More, _) => more_face(ch),
    }
}

// The same for a character beyond ASCII of the other set.
fn more_face(ch: char) -> char
    ensures { result ≡ more_face ch }
{
    if matches!(ch, '\u{2500}'..='\u{259f}') || number_of(ch).is_some() {
        return ch;
    }
    match ch {
        '\u{a0}' => ' ',
        _ => char::REPLACEMENT_CHARACTER,
    }
}

// Ink and paper exchanged.
fn exchange(key: Key) -> Key
    ensures { result ≡ exchanged key }
{
    Key {
        ink: key.paper,
        paper: key.ink,
        ..key
    }
}
