//! What viewers see, by their canvases: viewer 1's stands first, and one that has left has none.

ghost use Rattle.std.specs.Prelude.{◌≡◌, ◌&&◌, ◌+◌, ◌↔◌, true, false, IfOk, IfSome, IsTrue};
ghost use Rattle.std.specs.Option.{is_some, option_map};
ghost use Rattle.gate_model.specs.picture.Layers.{Layers, Same, visible};
ghost use Rattle.canvas.specs.Standing.{Stands, dot_at};
ghost use Rattle.gate_script.specs.Plays.{colour_sum, row_sum, rows_sum};
ghost use Rattle.gate_script.specs.Seeing.{AgreeWithFirst, AreAlike, AreUnlike, canvas_at};

use canvas::{Canvas, Dot};
use gate_model::{Colour, NoMemory};

/// What a place of layer 0 of the viewer's canvas shows, if the viewer has one.
pub(crate) fn dot_of(canvases: &[Option<Canvas>], viewer: u32, x: u64, y: u64) -> Option<Dot>
    ensures there { is_some result ≡ is_some (canvas_at canvases.now viewer) }
    ensures dot { (m : Layers) → IfSome (canvas_at canvases.now viewer) (λ c. Stands c m) → IfSome result (λ d. d ≡ dot_at (m visible) x y) }
{
    let canvas = canvas_of(canvases, viewer)?;
    Some(dot_in(canvas, x, y))
}

/// Whether two viewers' canvases are the same in every layer, if both viewers have one.
pub(crate) fn are_same(canvases: &[Option<Canvas>], one: u32, other: u32) -> Option<bool>
    ensures there { is_some result ≡ (is_some (canvas_at canvases.now one) && is_some (canvas_at canvases.now other)) }
    ensures same { (m n : Layers) → IfSome (canvas_at canvases.now one) (λ c. Stands c m) → IfSome (canvas_at canvases.now other) (λ c. Stands c n) → IfSome result (λ b. IsTrue b ↔ Same m n) }
{
    let one = canvas_of(canvases, one)?;
    let other = canvas_of(canvases, other)?;
    Some(one.same(other))
}

// The canvas of a viewer, if the viewer has one.
fn canvas_of(canvases: &[Option<Canvas>], viewer: u32) -> Option<&Canvas>
    ensures { option_map (λ c. c.now) result ≡ canvas_at canvases.now viewer }
{
    let place = viewer as usize;
    if 1 <= place && place <= canvases.len() {
        canvases[place - 1].as_ref()
    } else {
        None
    }
}

// What a place of layer 0 shows. A place that no layer has is outside.
fn dot_in(canvas: &Canvas, x: u64, y: u64) -> Dot
    ensures { (m : Layers) → Stands canvas.now m → result ≡ dot_at (m visible) x y }
{
    let (width, height) = canvas.layer_size(0);
    if x < u64::from(width) && y < u64::from(height) {
        canvas.pixel(0, x as u32, y as u32)
    } else {
        Dot::Outside
    }
}

/// Whether each viewer who has a canvas sees what viewer 1 sees, if viewer 1 has one.
pub(crate) fn agree_with_first(canvases: &[Option<Canvas>]) -> bool
    ensures { AgreeWithFirst canvases.now result }
{
    for place in 0..canvases.len() {
        if !are_alike(&canvases[0], &canvases[place]) {
            return false;
        }
    }
    true
}

// Whether two canvases show the same, if both are there.
fn are_alike(one: &Option<Canvas>, other: &Option<Canvas>) -> bool
    ensures alike { result ≡ true → AreAlike one.now other.now }
    ensures unlike { result ≡ false → AreUnlike one.now other.now }
{
    match (one, other) {
        (Some(one), Some(other)) => one.same(other),
        _ => true,
    }
}

/// The sum of all colours of layer 0 of viewer 1's canvas, 0 where the viewer has none. A sum that isn't below
/// 2^64 is refused.
pub(crate) fn pixel_sum(canvases: &[Option<Canvas>]) -> Result<u64, NoMemory>
    ensures none { is_some (canvas_at canvases.now 1) ≡ false → IfOk result (λ sum. sum ≡ 0) }
    ensures sum { (m : Layers) → is_some (canvas_at canvases.now 1) ≡ true → IfSome (canvas_at canvases.now 1) (λ c. Stands c m) → IfOk result (λ sum. sum ≡ rows_sum (m visible) (m visible).height) }
{
    let Some(canvas) = canvas_of(canvases, 1) else {
        return Ok(0);
    };
    let (width, height) = canvas.layer_size(0);
    rows_sum(canvas, width, height)
}

/// The sum of all colours of the first rows of layer 0. A sum that isn't below 2^64 is refused.
pub(crate) fn rows_sum(canvas: &Canvas, width: u32, height: u32) -> Result<u64, NoMemory>
    ensures { (m : Layers) → Stands canvas.now m → width ≡ (m visible).width → IfOk result (λ sum. sum ≡ rows_sum (m visible) height) }
{
    let mut sum = 0;
    for y in 0..height {
        sum = row_sum(canvas, width, y, sum)?;
    }
    Ok(sum)
}

// The sum after the row of that place.
fn row_sum(canvas: &Canvas, width: u32, y: u32, before: u64) -> Result<u64, NoMemory>
    ensures { (m : Layers) → Stands canvas.now m → IfOk result (λ sum. sum ≡ before + row_sum (m visible) y width) }
{
    let mut sum: u64 = before;
    for x in 0..width {
        match sum.checked_add(colour_sum(canvas.pixel(0, x, y))) {
            Some(more) => sum = more,
            None => return Err(NoMemory),
        }
    }
    Ok(sum)
}

// The sum of what a place shows.
fn colour_sum(dot: Dot) -> u64
    ensures { result ≡ colour_sum dot }
{
    match dot {
        Dot::Painted(Colour { red, green, blue }) => {
            u64::from(red) + u64::from(green) + u64::from(blue)
        }
        Dot::Outside | Dot::Clear => 0,
    }
}
