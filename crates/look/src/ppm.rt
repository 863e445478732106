//! A picture as a portable pixmap.

ghost use Rattle.std.specs.Prelude.{◌≡◌, ◌++◌, ◌≤◌, IfOk, OnOk};
ghost use Rattle.gate_model.specs.picture.Layers.{Layers, visible};
ghost use Rattle.canvas.specs.Standing.{Stands};
ghost use Rattle.look.specs.Ppm.{head_of, line_of, ppm_of, rgb_of};

use canvas::{Canvas, Dot};
use gate_model::NoMemory;
use itoa::Buffer;
use std::alloc::Global;

/// Layer 0 as a raw portable pixmap (the Netpbm formats, `P6`): its size, and then the red, green and blue of
/// each pixel, row by row from above. A clear pixel is black. The only error is want of memory.
pub fn ppm_of(alloc: Global, canvas: &Canvas) -> Result<Vec<u8>, NoMemory>
    ensures { (m : Layers) → Stands canvas.now m → IfOk result (λ p. p.items ≡ ppm_of (m visible)) }
{
    let (width, height) = canvas.layer_size(0);
    let mut into = Vec::new(alloc);
    put_head(&mut into, width, height)?;
    for y in 0..height {
        put_line(&mut into, canvas, y, width)?;
    }
    Ok(into)
}

// Appends what stands before the pixels.
fn put_head(into: &mut Vec<u8>, width: u32, height: u32) -> Result<(), NoMemory>
    ensures { OnOk result (into.new.items ≡ into.old.items ++ head_of width height) }
{
    let mut buffer = Buffer::new();
    into.extend_from_slice(b"P6\n")?;
    into.extend_from_slice(buffer.format(width).as_bytes())?;
    into.extend_from_slice(b" ")?;
    into.extend_from_slice(buffer.format(height).as_bytes())?;
    into.extend_from_slice(b"\n255\n")?;
    Ok(())
}

// Appends the first pixels of a line, so many.
fn put_line(into: &mut Vec<u8>, canvas: &Canvas, y: u32, count: u32) -> Result<(), NoMemory>
    ensures { (m : Layers) → Stands canvas.now m → OnOk result (into.new.items ≡ into.old.items ++ line_of (m visible) y count) }
{
    for x in 0..count {
        let rgb = rgb_of(canvas.pixel(0, x, y));
        into.extend_from_slice(&rgb)?;
    }
    Ok(())
}

// The red, green and blue of a place.
fn rgb_of(dot: Dot) -> [u8; 3]
    ensures { result ≡ rgb_of dot }
{
    match dot {
        Dot::Painted(colour) => [colour.red, colour.green, colour.blue],
        Dot::Clear | Dot::Outside => [0, 0, 0],
    }
}
