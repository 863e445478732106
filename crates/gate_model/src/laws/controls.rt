//! Laws of characters and control functions.

ghost use Rattle.gate_model.specs.terminal.ControlLaws.{CharactersAreLossy, CharactersOfAnyCutting, ControlsOfAnyCutting, GivenControlsStay, UnfinishedBeginsCharacter};

/// The control functions of a stream are the same however it is cut into pieces.
pub fn controls_of_any_cutting()
    ensures characters { CharactersOfAnyCutting }
    ensures controls { ControlsOfAnyCutting }
    ensures stays { GivenControlsStay }
{}

/// Characters are std's lossy reading of the bytes, without an end that may still become a character.
pub fn characters_are_lossy()
    ensures lossy { CharactersAreLossy }
    ensures unfinished { UnfinishedBeginsCharacter }
{}
