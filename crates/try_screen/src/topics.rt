//! Which calls are made for the rows of a file.

use crate::{canvases, desks, glyphs, grids, screens, views};
use anyhow::{Result, bail};
use std::alloc::Global;

/// What the calls of a topic give on an input.
pub fn value(alloc: Global, topic: &str, input: &str) -> Result<String> {
    match topic {
        "grids" => grids::edited(alloc, input),
        "screens" => screens::seen(alloc, input),
        "resizes" => screens::resized(alloc, input),
        "looks" => screens::look(alloc, input),
        "reports" => screens::reports(alloc, input),
        "shifts" => screens::shifts(alloc, input),
        "cursor_keys" => screens::cursor_keys(alloc, input),
        "copies" => screens::copies(alloc, input),
        "canvases" => canvases::drawn(alloc, input),
        "dots" => canvases::dot(alloc, input),
        "sames" => canvases::same(alloc, input),
        "desks" => desks::answers(alloc, input),
        "views" => views::compared(alloc, input),
        "glyphs" => glyphs::picture(alloc, input),
        "alphabets" => glyphs::alphabet(alloc, input),
        "faces" => screens::seen_with_more(alloc, input),
        "desk_roles" => desks::roles(alloc, input),
        _ => bail!("no such topic"),
    }
}
