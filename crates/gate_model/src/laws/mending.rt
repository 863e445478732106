//! Laws of mending: which halves can be without their other half after an edit.

ghost use Rattle.gate_model.specs.terminal.MendLaws.{AllAreMended, ErasedMends, MendedStay, MovedMend, PairMends, PlacesMend, PutMends, PutsMend, RowsMend, ScrolledMend, TwoMend, WholesAreMended, WindowsMend};

/// Where no half is without its other half nothing is mended, as it is where every cell is whole and after all were
/// mended; and each place may be mended by itself (this project's own).
pub fn mends_by_place()
    ensures stays { MendedStay }
    ensures wholes { WholesAreMended }
    ensures all { AllAreMended }
    ensures places { PlacesMend }
{}

/// Where columns of a row became others that are mended, the two places beside them are all that there is to mend
/// (this project's own).
pub fn mends_beside()
    ensures two { TwoMend }
    ensures window { WindowsMend }
    ensures put { PutMends }
    ensures pair { PairMends }
    ensures erased { ErasedMends }
{}

/// Where one row became another, it is all that there is to mend; and lines that scroll stay mended (this project's own).
pub fn mends_rows()
    ensures row { RowsMend }
    ensures moved { MovedMend }
    ensures scrolled { ScrolledMend }
{}

/// A whole cell may be put before or after all others are mended (this project's own).
pub fn mends_after_puts()
    ensures { PutsMend }
{}
