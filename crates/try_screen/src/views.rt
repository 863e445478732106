//! What viewers of a desk see: one who reads all along, and one who joins last.

use crate::desks;
use anyhow::{Context, Result};
use canvas::Canvas;
use desk_core::Desk;
use gate_model::{Asked, Share};
use std::alloc::Global;
use try_canvases::{is_alike, played};

/// Whether an owner, who alone was given something by the calls, sees what one sees who joins after them, and the size of
/// what that one sees.
pub fn compared(alloc: Global, input: &str) -> Result<String> {
    let mut desk = desks::opened(alloc, Share::View, 1000)?;
    let owner = owner_sees(&mut desk, alloc, input)?;
    let joiner = joiner_sees(&mut desk, alloc)?;
    told(alloc, &owner, &joiner)
}

fn told(alloc: Global, owner: &Canvas, joiner: &Canvas) -> Result<String> {
    let (width, height) = joiner.layer_size(0);
    let seen = if is_alike(owner, joiner) {
        "same"
    } else {
        "differ"
    };
    Ok(format!(in alloc; "{seen}, {width} by {height}")?)
}

fn owner_sees(desk: &mut Desk, alloc: Global, calls: &str) -> Result<Canvas> {
    let text = desks::given(desk, alloc, calls)?;
    played(alloc, &text)
}

fn joiner_sees(desk: &mut Desk, alloc: Global) -> Result<Canvas> {
    let text = joined(desk, alloc)?;
    played(alloc, &text)
}

// What one who joins is given.
fn joined(desk: &mut Desk, alloc: Global) -> Result<Vec<u8>> {
    let mut text = Vec::new(alloc);
    let _joined = desk.join(Asked::View, &mut text).ok().context("no joiner")?;
    Ok(text)
}
