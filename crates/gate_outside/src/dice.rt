ghost use Rattle.gate_outside.specs.Draws.{Drew};
ghost use Rattle.gate_outside.specs.Helpers.{KeepsCounts};

use crate::Counted;

/// Draws bytes (this project's own).
pub trait Dice: Counted {
    /// Sixteen bytes: the next draw, where the dice tell what is to come.
    fn bytes(&mut self) -> [u8; 16]
        ensures drawn { Drew result (Self.helper self.old).draws (Self.helper self.new).draws }
        ensures counts { KeepsCounts (Self.helper self.old) (Self.helper self.new) };
}
