ghost use Rattle.gate_outside.specs.Helpers.{HelperView};

/// What those who serve a session tell of themselves (this project's own). Each call of each trait over this one says what
/// it does to it.
pub trait Counted: Drop {
    /// The counts of faults, and the draws that are to come.
    ghost helper: { Self → HelperView };
}
