//! Lists that only contracts see: no memory holds their elements. A type carries one where its contracts
//! speak of something that it doesn't need to keep, such as everything that has happened to it.
//!
//! A list is made from a name (`Lists`), which the caller's proof picks at each call. So a list with one
//! element more is a new list, whose name the proof picks from the list before it.
#![tactic(auto)]

mod list;

pub use list::{GhostList, Lists};
