ghost use Rattle.std.specs.Prelude.{◌≡◌};
ghost use Rattle.guac_handshake.specs.declared.form_refusal.FormRefusal.TheVariants.{NoMemory as no_memory};

use crate::Refused;
use gate_model::NoMemory;
use std::alloc::AllocError;

/// Why a form led to no place (this project's own).
#[derive(Clone, Copy, Debug, PartialEq, Eq)]
pub enum FormRefusal {
    /// It is out of form.
    Form,
    /// The door refused what it asks.
    Door(Refused),
    /// Want of memory, before the door was asked.
    NoMemory,
}

impl From<NoMemory> for FormRefusal {
    ghost from_gives = { λ _ e. e ≡ no_memory };

    fn from(_refused: NoMemory) -> FormRefusal {
        FormRefusal::NoMemory
    }
}

impl From<AllocError> for FormRefusal {
    ghost from_gives = { λ _ e. e ≡ no_memory };

    fn from(_refused: AllocError) -> FormRefusal {
        FormRefusal::NoMemory
    }
}
