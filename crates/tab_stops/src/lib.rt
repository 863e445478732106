//! The tab stops of a screen's line, and the moves between them.
//!
//! Contracts see the stops as a list of flags, one for each column, and cite gate_model's definitions:
//! `first_stops` in `Terminal` for those of the start, and `stops_above`, `stops_below` and `stops_cleared` in
//! `TabStops`. The stops know of no cursor and of no screen.
#![tactic(auto)]

mod stops;

pub use stops::TabStops;
