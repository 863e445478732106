ghost use Rattle.std.specs.Prelude.{◌≡◌};

use crate::{Clock, Dialer, Dice, Spawner};
use gate_model::NoMemory;
use std::alloc::Global;

/// All that a service asks of its surroundings while it serves one connection (this project's own).
pub trait Helper: Dialer + Spawner + Clock + Dice + Sized + Send + 'static {
    /// A helper with counts, a clock and dice of its own.
    fn another(&mut self, alloc: Global) -> Result<Self, NoMemory>
        ensures helper { Self.helper self.new ≡ Self.helper self.old };
}
