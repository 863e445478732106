//! Laws of what viewers are given.

ghost use Rattle.gate_model.specs.session.WholeLaws.{BuffersKeepSizes, GivenIsReadable, HandedIsReadable, HistoriesAreWhole, MakingRestores, WholeIsFaithful};

/// A legal history in which each frame draws its screen, each picture that is given restores every layer,
/// and layers keep their sizes, is whole, and so true to every viewer (this project's own).
pub fn histories_are_whole()
    ensures whole { HistoriesAreWhole }
    ensures faithful { WholeIsFaithful }
{}

/// What an entry keeps, told from the layers of the screen and its buffers: a list that makes them of any
/// others restores, and layers keep their sizes where there are no fewer buffers (this project's own).
pub fn pictures_restore()
    ensures restores { MakingRestores }
    ensures sizes { BuffersKeepSizes }
{}

/// What a viewer is given is read back as it was written (this project's own).
pub fn given_is_readable()
    ensures given { GivenIsReadable }
    ensures handed { HandedIsReadable }
{}
