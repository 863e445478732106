ghost use Rattle.std.specs.Prelude.{◌+◌, ◌-◌, ◌<◌, ◌≡◌, ℕ, Some, None, min, length, IfSome};
ghost use Rattle.gate_outside.specs.Draws.{listed_draw};

use crate::{Counted, Dice};

/// Dice that give listed draws in order, and then the last again. They tell what is to come.
#[derive(Drop)]
pub struct MemDice {
    listed: Vec<[u8; 16]>,
    at: usize,
    ghost within: { at < length listed.items },
}

impl MemDice {
    /// Dice that give these draws, at least one.
    pub fn new(draws: Vec<[u8; 16]>) -> MemDice
        requires { 0 < length draws.items }
        ensures { IfSome (⟦<MemDice as Counted>⟧.helper result).draws (λ d. (n : ℕ) → d n ≡ listed_draw draws.items 0 n) }
    {
        MemDice {
            listed: draws,
            at: 0,
        }
    }
}

impl Counted for MemDice {
    ghost helper = { λ s. record { dial_faults = 0; start_faults = 0; draws = Some (λ n. listed_draw s.listed.items s.at n) } };
}

impl Dice for MemDice {
    fn bytes(&mut self) -> [u8; 16] {
        let drawn = self.listed[self.at];
        if self.at + 1 < self.listed.len() {
            self.at += 1;
        }
        drawn
    }
}
