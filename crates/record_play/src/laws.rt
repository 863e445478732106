//! The laws about recordings and captured streams: each function's contract is a law.

ghost use Rattle.record_play.specs.Laws.{BadIsOne, CapturedOnce, CapturedOrBad, FaultIsOne, RecordedOnce, RecordedOrFault, SyncsShowTheScreen};

/// Bytes are a recording, in one way, or they have one first fault (this project's own).
pub fn recordings_are_read_once()
    ensures apart { RecordedOrFault }
    ensures once { RecordedOnce }
    ensures first { FaultIsOne }
{}

/// Bytes are a stream of a client, in one way, or they have one first bad byte (this project's own).
pub fn streams_are_read_once()
    ensures apart { CapturedOrBad }
    ensures once { CapturedOnce }
    ensures first { BadIsOne }
{}

/// Of what a viewer of a legal and true history was given, the instructions of a recording through a sync draw
/// the picture of the screen at that stamp: so a player that was sought to that sync shows it (this project's
/// own).
pub fn syncs_show_the_screen()
    ensures { SyncsShowTheScreen }
{}
