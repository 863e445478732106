//! Links that let people join a session: each with a right, and with so many uses (this project's own).
//!
//! A [`LinkTable`] has them. What a list of its calls leaves is `Leave` of `specs/Histories.antt`, and each call does what
//! `Does` says there. At a [`LinkDoor`] a link's name is a name too (`JoinsThrough` of `specs/Doors.antt`), and [`Linked`] is
//! such a door over a table that threads share. [`link_request`] makes and revokes links (`Serves` of
//! `specs/Requests.antt`).
#![tactic(auto)]

mod answering;
mod door;
mod form;
pub mod laws;
mod link;
mod linked;
mod route;
mod table;
#[cfg(test)]
mod tests;

pub use answering::link_request;
pub use door::LinkDoor;
pub use link::Link;
pub use linked::Linked;
pub use route::is_links_path;
pub use table::{LinkRefusal, LinkTable, Spent};
