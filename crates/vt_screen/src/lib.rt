//! The screen of a terminal: its cells, its cursor, and what each control function does to them (ECMA-48;
//! which functions have an effect, and how far each goes, is this project's own).
//!
//! Contracts see a screen as gate_model's `Terminal` and cite its definitions: `opening_screen` in
//! `Terminal`, `effect` in `Effects` for the state that `Screen::apply` leaves, `report` in `Reports` for
//! what it answers, and `shown` in `Screens` for `Screen::shown`. The screen knows of no Telnet, of no
//! bytes and of no pixels.
//!
//! It has two layers. `State` does what a control function says (`acted` in `Effects`), and `Screen`, around it, then
//! mends the halves of wide characters that this can have left without their other half, so that none is on it between
//! two calls (`MendLaws`).
#![tactic(auto)]

mod applying;
mod arguments;
mod clearing;
mod cursor;
mod editing;
mod mending;
mod modes;
mod pen;
mod printing;
mod reach;
mod reply;
mod report;
mod running;
mod saved;
mod screen;
mod scrolled;
mod scrolling;
mod showing;
mod state;
mod table;

pub use reply::Reply;
pub use screen::Screen;
