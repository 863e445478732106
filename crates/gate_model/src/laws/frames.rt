//! Laws of glyph buffers, of what a frame may cost, and of the frames that are kept.

ghost use Rattle.gate_model.specs.session.FrameLaws.{ChangesOfFewLines, HeldAreNotNew, LayersAreDrawn, NewKeysAreAdded, NothingIsLayers, SameKeysAreEqual, SamenessGoesOn};
ghost use Rattle.gate_model.specs.session.KeptLaws.{CoveredLackFew, CoversByStamp, KeptAreAll, KeptAreFew, KeptAreLast, KeptGoOn};

/// Layers of a screen and its buffers show the picture of the screen, and no layers at all are those of
/// a screen without places (this project's own).
pub fn layers_are_drawn()
    ensures drawn { LayersAreDrawn }
    ensures nothing { NothingIsLayers }
{}

/// Which keys are new among others: none where every one is held, and with them just those are held that
/// were held or are among the others (this project's own).
pub fn new_keys_are_added()
    ensures same { SameKeysAreEqual }
    ensures held { HeldAreNotNew }
    ensures added { NewKeysAreAdded }
{}

/// The places that changed are the same where the scrolled lines are counted no further than a number
/// that is at least that of the rows (this project's own).
pub fn changes_of_few_lines()
    ensures { ChangesOfFewLines }
{}

/// Layers that are the same, with no unfilled path, stay so under a frame (this project's own).
pub fn sameness_goes_on()
    ensures { SamenessGoesOn }
{}

/// The kept frames are the last ones, as many as are within 256 frames and 8,388,608 bytes of text, and what
/// is kept of longer lists can be told from what is kept (this project's own).
pub fn kept_are_last()
    ensures last { KeptAreLast }
    ensures few { KeptAreFew }
    ensures all { KeptAreAll }
    ensures on { KeptGoOn }
{}

/// Whether every frame above a stamp is kept is one comparison, with the last stamp of those that are gone
/// (this project's own). A viewer for whom they are lacks at most 256.
pub fn covers_by_stamp()
    ensures stamp { CoversByStamp }
    ensures few { CoveredLackFew }
{}
