//! Laws of the edits of a grid of cells.

ghost use Rattle.gate_model.specs.terminal.CellLaws.{DeletedByCell, ErasedByCell, InsertedByCell, NothingAtZero, PutByCell, ResizedByCell, ScrolledDownByCell, ScrolledUpByCell};

/// What each edit of a grid leaves in each column of each row (ECMA-48's ECH, ICH, DCH, SU and SD; the
/// blank cells are this project's own).
pub fn edits_by_cell()
    ensures put { PutByCell }
    ensures erased { ErasedByCell }
    ensures inserted { InsertedByCell }
    ensures deleted { DeletedByCell }
    ensures up { ScrolledUpByCell }
    ensures down { ScrolledDownByCell }
{}

/// A move of cells by 0 changes nothing (this project's own).
pub fn nothing_at_zero()
    ensures { NothingAtZero }
{}

/// A grid of another size keeps the cells of the places that both sizes have, and every other cell is blank
/// (this project's own).
pub fn resized_by_cell()
    ensures { ResizedByCell }
{}
