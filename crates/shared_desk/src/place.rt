//! A viewer's place in a session.

use crate::reader::ReaderPass;
use crate::writer::WriterPass;
use gate_model::Role;
use gate_outside::Seat;

/// The passes of a viewer, and its role.
#[derive(Drop)]
pub struct Place {
    pub reader: ReaderPass,
    pub writer: WriterPass,
    pub role: Role,
}

impl Seat for Place {
    ghost use Rattle.shared_desk.specs.Hosts.{IsFresh};

    ghost fresh = { λ place text. IsFresh place text };
}
