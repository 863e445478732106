//! The cells of a screen: a rectangle of them, and the moves of whole runs that the control functions
//! of a terminal make.
//!
//! Contracts see a grid as gate_model's `CellGrid`, its columns, its rows and its cells row by row, and
//! each call leaves just the cells that its definition gives (`gate_model/specs/terminal/Cells.antt`). The grid
//! knows of no cursor and of no control function. A wide character has two cells, whose halves are mended where the
//! caller says so (`gate_model/specs/terminal/MendLaws.antt`).
#![tactic(auto)]

mod grid;
mod mending;
mod runs;
mod window;

pub use grid::Grid;
