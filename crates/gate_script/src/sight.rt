/// Whether a run may ask what viewers see.
#[derive(Clone, Copy, Debug, PartialEq, Eq)]
pub(crate) enum Sight {
    /// It may: what each viewer is given is played on the viewer's canvas.
    Played,
    /// It never does: no viewer has a canvas.
    Unplayed,
}
