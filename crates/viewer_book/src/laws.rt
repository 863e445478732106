//! The laws about books: each function is empty, and its contract is the law.

ghost use Rattle.viewer_book.specs.Laws.{AdditionsAddOne, ChangesChangeOne, LiveHaveJoined, NextIsNew, RemovalsRemoveOne};

/// Adding a viewer puts it under the next number, and leaves every other as it was: one more has joined
/// and one more is live (this project's own).
pub fn additions_add_one()
    ensures { AdditionsAddOne }
{}

/// A change of one viewer that keeps its number leaves every other as it was: as many have joined, and
/// as many are live (this project's own).
pub fn changes_change_one()
    ensures { ChangesChangeOne }
{}

/// Removing a viewer leaves every other as it was: as many have joined, and one fewer is live (this
/// project's own).
pub fn removals_remove_one()
    ensures { RemovalsRemoveOne }
{}

/// A live viewer is found by its own number, which is from 1 to the number of those who have joined
/// (this project's own).
pub fn live_have_joined()
    ensures { LiveHaveJoined }
{}

/// The number that the next viewer gets is no live viewer's (this project's own).
pub fn next_is_new()
    ensures { NextIsNew }
{}
