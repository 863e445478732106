//! The modifier keys that a viewer holds down.

ghost use Rattle.std.specs.Prelude.{◌≡◌};
ghost use Rattle.gate_model.specs.keys.Modifiers.{alt_held, control_held, mods_after};

use gate_model::Mods;

/// The held modifiers after a key was pressed or released (this project's own rule).
///
/// The keysyms FFE3 and FFE4 are the left and right Control, FFE9 and FFEA the left and right Alt.
/// Each is held for itself. Any other key, Shift among them, changes nothing.
pub fn mods_after(mods: Mods, keysym: u32, pressed: bool) -> Mods
    ensures held { result ≡ mods_after mods keysym pressed }
{
    let mut after = mods;
    match keysym {
        0xffe3 => after.control_left = pressed,
        0xffe4 => after.control_right = pressed,
        0xffe9 => after.alt_left = pressed,
        0xffea => after.alt_right = pressed,
        _ => {}
    }
    after
}

/// Whether either Control is held.
pub fn control_held(mods: Mods) -> bool
    ensures { result ≡ control_held mods }
{
    mods.control_left || mods.control_right
}

/// Whether either Alt is held.
pub fn alt_held(mods: Mods) -> bool
    ensures { result ≡ alt_held mods }
{
    mods.alt_left || mods.alt_right
}
