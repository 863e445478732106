ghost use Rattle.std.specs.Prelude.{◌≡◌};

use crate::Counted;

/// Tells moments (this project's own).
pub trait Clock: Counted {
    /// A moment. Nothing is claimed of how two of them are related.
    fn now(&mut self) -> u64
        ensures helper { Self.helper self.new ≡ Self.helper self.old };
}
