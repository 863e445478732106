//! Laws of screens.

ghost use Rattle.gate_model.specs.terminal.ScreenLaws.{AsciiIsNarrow, BoxIsNarrow, ScreensGoOn, ScreensTurn, ScrollsAreCounted, ScrollsAreNotReported};

/// How many lines of the whole screen were scrolled before is only counted: no control function looks at
/// the number, and no report tells it (this project's own).
pub fn scrolls_are_counted()
    ensures counted { ScrollsAreCounted }
    ensures unreported { ScrollsAreNotReported }
{}

/// Bytes that come after all changes of size go on from the screen before them, and a change after all bytes gives that
/// screen another size (this project's own).
pub fn screens_go_on()
    ensures bytes { ScreensGoOn }
    ensures size { ScreensTurn }
{}

/// Printable ASCII takes one column of a screen, and so does U+FFFD (Unicode Standard Annex 11).
pub fn narrow_characters()
    ensures ascii { AsciiIsNarrow }
    ensures replacement { BoxIsNarrow }
{}
