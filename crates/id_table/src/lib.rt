//! Values under IDs that dice draw (RFC 9562, version 4), for one thread and for many.
//!
//! What a table or a shelf holds is a map by ID (`Map` of `specs/Maps.antt`): `add` takes the first absent ID
//! of four draws, and each call leaves every other ID as it was. A shelf lends its values out; one that is
//! shared between threads doesn't tell its map, and each of its clauses then holds by itself.
#![tactic(auto)]

mod add_refusal;
mod id_table;
mod locked_shelf;
mod plain_shelf;
mod shelf;
#[cfg(test)]
mod tests;

pub use add_refusal::AddRefusal;
pub use id_table::IdTable;
pub use locked_shelf::LockedShelf;
pub use plain_shelf::PlainShelf;
pub use shelf::Shelf;
