ghost use Rattle.gate_model.specs.Limits.{most_extent};
ghost use Rattle.std.specs.Prelude.{◌≡◌, ℕ, ◌+◌, ◌-◌, ◌*◌, ◌<◌, ◌≤◌, get_or, is_some, IsTrue, IfOk, OnOk, ◌↔◌, ◌&&◌, nat_lt, List, length, replicate, Some, if◌then◌else◌};
ghost use Rattle.gate_model.specs.picture.Layers.{is_covered, over};
ghost use Rattle.canvas.specs.Kept.{IsOverlaid, Shows, area_of, covers, is_within, pixel_in, with_part};

use crate::rectangle::Rectangle;
use gate_model::{Colour, NoMemory};
use std::alloc::Global;

// Every rectangle of the path is filled, as far as it lies within the pixels.
pub(crate) fn fill_path(
    pixels: &mut [Option<Colour>],
    width: u32,
    height: u32,
    path: &[Rectangle],
    colour: Colour,
)
    requires size { length pixels.old ≡ height * width }
    requires columns { width ≤ most_extent }
    requires rows { height ≤ most_extent }
    ensures { Shows pixels.new width height (λ x y. if covers path.now x y then Some colour else pixel_in pixels.old width x y) }
{
    for rectangle in path {
        fill_rectangle(pixels, width, height, *rectangle, colour);
    }
}

// The part of the rectangle that lies within the pixels is filled, row by row.
fn fill_rectangle(
    pixels: &mut [Option<Colour>],
    width: u32,
    height: u32,
    rectangle: Rectangle,
    colour: Colour,
)
    requires size { length pixels.old ≡ height * width }
    requires columns { width ≤ most_extent }
    requires rows { height ≤ most_extent }
    ensures { Shows pixels.new width height (λ x y. if is_covered (area_of rectangle) x y then Some colour else pixel_in pixels.old width x y) }
{
    let left = rectangle.x.min(width) as usize;
    let right = rectangle.x.saturating_add(rectangle.width).min(width) as usize;
    let top = rectangle.y.min(height) as usize;
    let bottom = rectangle.y.saturating_add(rectangle.height).min(height) as usize;
    for y in top..bottom {
        let row = y * width as usize;
        fill_run(pixels, row + left, row + right, colour);
    }
}

// The pixels from `from` up to, not including, `to` have the colour.
fn fill_run(pixels: &mut [Option<Colour>], from: usize, to: usize, colour: Colour)
    requires order { from ≤ to }
    requires end { to ≤ length pixels.old }
    ensures { pixels.new ≡ with_part from to (replicate (to - from) (Some colour)) pixels.old }
{
    pixels[from..to].fill(Some(colour));
}

// The rectangle `area` of the source's pixels comes to column `x` and row `y` of the target's, row by
// row; where it is clear, the target stays. The area lies in both. The two widths are those of a row.
pub(crate) fn overlay(
    target: &mut [Option<Colour>],
    target_width: u32,
    x: u32,
    y: u32,
    source: &[Option<Colour>],
    source_width: u32,
    area: Rectangle,
)
    requires wide { source_width ≤ most_extent }
    requires source_columns { area.x + area.width ≤ source_width }
    requires source_rows { (area.y + area.height) * source_width ≤ length source.now }
    requires target_columns { x + area.width ≤ target_width }
    requires target_rows { (y + area.height) * target_width ≤ length target.old }
    ensures { (px py : ℕ) → px < target_width → pixel_in target.new target_width px py ≡ (if is_within x (x + area.width) y (y + area.height) px py then over (pixel_in source.now source_width (area.x + (px - x)) (area.y + (py - y))) (pixel_in target.old target_width px py) else pixel_in target.old target_width px py) }
{
    for row in 0..area.height as usize {
        let from = (area.y as usize + row) * source_width as usize + area.x as usize;
        let to = (y as usize + row) * target_width as usize + x as usize;
        let end = from + area.width as usize;
        overlay_at(target, to, &source[from..end]);
    }
}

// The run comes over the pixels from `to` on.
fn overlay_at(pixels: &mut [Option<Colour>], to: usize, run: &[Option<Colour>])
    requires { to + length run.now ≤ length pixels.old }
    ensures { IsOverlaid to run.now pixels.old pixels.new }
{
    overlay_run(&mut pixels[to..to + run.len()], run);
}

// Each pixel of the run comes over the pixel at its place.
fn overlay_run(pixels: &mut [Option<Colour>], run: &[Option<Colour>])
    requires { length pixels.old ≡ length run.now }
    ensures { (k : ℕ) → k < length run.now → get_or pixels.new k None ≡ over (get_or run.now k None) (get_or pixels.old k None) }
{
    if is_opaque(run) {
        pixels.copy_from_slice(run);
        return;
    }
    for (k, pixel) in run.iter().enumerate() {
        if pixel.is_some() {
            pixels[k] = *pixel;
        }
    }
}

// Whether no pixel of the run is clear. All are looked at: a loop with no way out is compiled to wide steps.
fn is_opaque(run: &[Option<Colour>]) -> bool
    ensures { IsTrue result → (k : ℕ) → k < length run.now → IsTrue (is_some (get_or run.now k None)) }
{
    let mut clear = false;
    for pixel in run {
        clear |= pixel.is_none();
    }
    !clear
}

// The rectangle `area` of the pixels, row by row, in place of what `part` has. It lies in the pixels.
pub(crate) fn take_part(
    part: &mut Vec<Option<Colour>>,
    pixels: &[Option<Colour>],
    width: u32,
    area: Rectangle,
) -> Result<(), NoMemory>
    requires wide { width ≤ most_extent }
    requires columns { area.x + area.width ≤ width }
    requires rows { (area.y + area.height) * width ≤ length pixels.now }
    ensures { OnOk result (Shows part.new.items area.width area.height (λ x y. pixel_in pixels.now width (area.x + x) (area.y + y))) }
{
    part.clear();
    part.reserve(area.height as usize * area.width as usize)?;
    for row in 0..area.height as usize {
        let from = (area.y as usize + row) * width as usize + area.x as usize;
        part.extend_from_slice(&pixels[from..from + area.width as usize])?;
    }
    Ok(())
}

// Pixels of another size: the common part stays, and every other pixel is clear.
pub(crate) fn resized(
    alloc: Global,
    pixels: &[Option<Colour>],
    old_width: u32,
    old_height: u32,
    width: u32,
    height: u32,
) -> Result<Vec<Option<Colour>>, NoMemory>
    requires size { length pixels.now ≡ old_height * old_width }
    requires old_columns { old_width ≤ most_extent }
    requires old_rows { old_height ≤ most_extent }
    requires columns { width ≤ most_extent }
    requires rows { height ≤ most_extent }
    ensures { IfOk result (λ new. Shows new.items width height (λ x y. if nat_lt x old_width && nat_lt y old_height then pixel_in pixels.now old_width x y else None)) }
{
    let mut new = clear_pixels(alloc, height as usize * width as usize)?;
    let common = Rectangle {
        x: 0,
        y: 0,
        width: old_width.min(width),
        height: old_height.min(height),
    };
    overlay(&mut new, width, 0, 0, pixels, old_width, common);
    Ok(new)
}

fn clear_pixels(alloc: Global, count: usize) -> Result<Vec<Option<Colour>>, NoMemory>
    ensures { IfOk result (λ new. new.items ≡ replicate count None) }
{
    let mut new = Vec::new(alloc);
    new.resize(count, None)?;
    Ok(new)
}

// Whether the two have the same pixels.
pub(crate) fn is_same(left: &[Option<Colour>], right: &[Option<Colour>]) -> bool
    ensures { IsTrue result ↔ (left.now ≡ right.now) }
{
    left == right
}
