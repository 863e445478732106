//! A pass.
use crate::kept::Kept;
use crate::view::View;
use atomic_table::Seat;

/// The right to take turns at one lock. It has no bytes, and is used with the lock that it belongs
/// to. Contracts see it by `view_of` and `lock_of` of `specs/Passes.antt`. A pass that is dropped
/// outside a turn stops nobody.
#[derive(Drop)]
pub struct Pass<V: Kept + Drop> {
    pub(crate) seat: Seat<Option<V>, View<V::Entry>>,
}
