//! What a viewer is shown.

use anyhow::Result;
use canvas::Canvas;
use std::alloc::Global;
use try_canvases::{is_alike, played_past_others};

/// The colours of the points (1, 4) and (1, 2) after all instructions of the text that draw.
pub fn colours(alloc: Global, text: &[u8]) -> Result<String> {
    let canvas = played_past_others(alloc, text)?;
    let (ink, paper) = (canvas.pixel(0, 1, 4), canvas.pixel(0, 1, 2));
    Ok(format!(in alloc; "{ink:?} {paper:?}")?)
}

/// Whether the visible layer has the same size and the same pixels after all instructions of the one text that draw
/// and after those of the other.
pub fn are_alike(alloc: Global, one: &[u8], other: &[u8]) -> Result<bool> {
    let canvas = played_past_others(alloc, one)?;
    is_shown(alloc, &canvas, other)
}

fn is_shown(alloc: Global, canvas: &Canvas, text: &[u8]) -> Result<bool> {
    let other = played_past_others(alloc, text)?;
    Ok(is_alike(canvas, &other))
}
