//! The book of a session's viewers: how many have joined, and of each that is still live its role, the
//! newest stamp that it was given, the stamps that wait for its acknowledgement, whether it was given the
//! closing instruction, and the modifier keys that it holds down (this project's own).
//!
//! Contracts see a book as a `BookState` (`specs/Book.antt`): `viewer_at` looks a live viewer up by its
//! number, and `added`, `changed` and `removed` say what each call makes of the book. The laws about
//! them stand in `specs/Laws.antt`: a call changes one viewer alone.
#![tactic(auto)]

mod book;
pub mod laws;
mod viewer;
mod waiting;

pub use book::Book;
