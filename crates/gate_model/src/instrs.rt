ghost use Rattle.std.specs.Prelude.{◌≡◌, List};
ghost use Rattle.gate_model.specs.declared.instr.Instr.{Instr};

use crate::Instr;
use std::marker::Model;

/// Instructions that the gateway sends, in order; contracts see the list.
#[derive(Drop)]
pub struct Instrs {
    held: Vec<Instr>,
}

impl Model for Instrs {
    ghost Value = { List Instr };

    ghost view = { λ s. s.held.items };
}

impl Instrs {
    /// The list of the vector's items.
    pub fn of(value: Vec<Instr>) -> Instrs
        ensures { result ≡ value.items }
    {
        Instrs { held: value }
    }

    /// The vector that holds the list. It takes no memory.
    pub fn into_inner(self) -> Vec<Instr>
        ensures { result.items ≡ self }
    {
        self.held
    }

    /// The items, lent.
    pub fn as_slice(&self) -> &[Instr]
        ensures { result.now ≡ self.now }
    {
        &self.held
    }
}
