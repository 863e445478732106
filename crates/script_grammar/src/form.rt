use crate::play_form::PlayForm;
use crate::text_form::TextForm;

/// A form of the program's words.
#[derive(Clone, Copy, Debug, PartialEq, Eq)]
pub enum Form {
    /// Do the lines that the input makes.
    Text(TextForm),
    /// Do the lines that words drawn under this seed make, in so many rounds.
    Load(u64, u32),
    /// Tell of the recording that the input is.
    Play(PlayForm),
    /// Copy the input with the pasted text in it typed as keys.
    Clip,
}
