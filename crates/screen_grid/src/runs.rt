ghost use Rattle.std.specs.Prelude.{◌≡◌, ◌≤◌, false, length, map, replicate};
ghost use Rattle.gate_model.specs.terminal.Cells.{blank, moved_left, moved_right};
ghost use Rattle.screen_grid.specs.Runs.{like};
ghost use Rattle.gate_model.specs.declared.cell.Half.TheVariants.{Whole};

use gate_model::{Cell, Half};

/// A space with ink 7, paper 0 and no underline: what a new or an erased cell holds.
pub(crate) const BLANK: Cell = Cell {
    ch: ' ',
    ink: 7,
    paper: 0,
    under: false,
    half: Half::Whole,
};

// The cells move towards the start by `n`, at most all of them, and blanks come in at the end.
pub(crate) fn move_left(run: &mut [Cell], n: usize)
    ensures { run.new ≡ moved_left n run.old }
{
    let gone = n.min(run.len());
    let kept = run.len() - gone;
    run.copy_within(gone.., 0);
    run[kept..].fill(BLANK);
}

// The cells move towards the end by `n`, at most all of them, and blanks come in at the start.
pub(crate) fn move_right(run: &mut [Cell], n: usize)
    ensures { run.new ≡ moved_right n run.old }
{
    let gone = n.min(run.len());
    let kept = run.len() - gone;
    run.copy_within(..kept, gone);
    run[..gone].fill(BLANK);
}

// Every cell becomes blank.
pub(crate) fn erase(run: &mut [Cell])
    ensures { run.new ≡ replicate (length run.old) blank }
{
    run.fill(BLANK);
}

// The cells become cells like `pen`, each with its byte of `text` as its character.
pub(crate) fn draw(run: &mut [Cell], text: &[u8], pen: Cell)
    requires { length run.old ≡ length text.now }
    ensures { run.new ≡ map (like pen) text.now }
{
    for (i, byte) in text.iter().enumerate() {
        run[i] = Cell {
            ch: char::from(*byte),
            ..pen
        };
    }
}

// Whether a half of a character that takes two places is among cells, after this one more.
pub(crate) fn noted(halves: bool, cell: Cell) -> bool
    ensures { result ≡ false → (halves ≡ false) × (cell.half ≡ Whole) }
{
    match cell.half {
        Half::Whole => halves,
        Half::Left | Half::Right => true,
    }
}
