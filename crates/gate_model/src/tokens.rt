ghost use Rattle.std.specs.Prelude.{◌≡◌, List};
ghost use Rattle.gate_model.specs.declared.token.Token.{Token};

use crate::Token;
use std::marker::Model;

/// Telnet tokens, in order; contracts see the list.
#[derive(Drop)]
pub struct Tokens {
    held: Vec<Token>,
}

impl Model for Tokens {
    ghost Value = { List Token };

    ghost view = { λ s. s.held.items };
}

impl Tokens {
    /// The list of the vector's items.
    pub fn of(value: Vec<Token>) -> Tokens
        ensures { result ≡ value.items }
    {
        Tokens { held: value }
    }

    /// The vector that holds the list. It takes no memory.
    pub fn into_inner(self) -> Vec<Token>
        ensures { result.items ≡ self }
    {
        self.held
    }

    /// The items, lent.
    pub fn as_slice(&self) -> &[Token]
        ensures { result.now ≡ self.now }
    {
        &self.held
    }
}
