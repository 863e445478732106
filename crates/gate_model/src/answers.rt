ghost use Rattle.std.specs.Prelude.{◌≡◌, List};
ghost use Rattle.gate_model.specs.declared.answer.Answer.{Answer};

use crate::Answer;
use std::marker::Model;

/// The answers to a list of events, one for each, in order; contracts see the list.
#[derive(Drop)]
pub struct Answers {
    held: Vec<Answer>,
}

impl Model for Answers {
    ghost Value = { List Answer };

    ghost view = { λ s. s.held.items };
}

impl Answers {
    /// The list of the vector's items.
    pub fn of(value: Vec<Answer>) -> Answers
        ensures { result ≡ value.items }
    {
        Answers { held: value }
    }

    /// The vector that holds the list. It takes no memory.
    pub fn into_inner(self) -> Vec<Answer>
        ensures { result.items ≡ self }
    {
        self.held
    }

    /// The items, lent.
    pub fn as_slice(&self) -> &[Answer]
        ensures { result.now ≡ self.now }
    {
        &self.held
    }
}
