/// The modifier keys that a viewer holds down.
#[derive(Clone, Copy, Debug, PartialEq, Eq)]
pub struct Mods {
    pub control_left: bool,
    pub control_right: bool,
    pub alt_left: bool,
    pub alt_right: bool,
}
