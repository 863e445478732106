ghost use Rattle.gate_model.specs.Limits.{most_extent};
ghost use Rattle.std.specs.Prelude.{◌≡◌, ℕ, ◌+◌, ◌*◌, ◌<◌, ◌≤◌, ◌↔◌, IsTrue, length, OnOk, OnErr};
ghost use Rattle.canvas.specs.Kept.{HasPart, IsKeptAlike, IsPainted, IsSized, Shows, kept_dot, kept_empty, kept_traced, pixel_in};

use crate::dot::Dot;
use crate::pixels::{fill_path, is_same, overlay, resized, take_part};
use crate::rectangle::Rectangle;
use gate_model::{Colour, NoMemory};
use std::alloc::Global;
use std::marker::Model;

/// A layer, which contracts see as a `KeptLayer`: its size, its pixels row by row, of which None is
/// clear, its path, and whether the path was filled.
#[derive(Drop)]
pub struct Layer {
    width: u32,
    height: u32,
    pixels: Vec<Option<Colour>>,
    path: Vec<Rectangle>,
    filled: bool,
}

impl Model for Layer {
    ghost use Rattle.gate_model.specs.Limits.{most_extent};
    ghost use Rattle.std.specs.Prelude.{◌≡◌, ◌*◌, ◌≤◌, length};
    ghost use Rattle.canvas.specs.Kept.{KeptLayer};

    ghost Value = { KeptLayer };

    ghost view = { λ l. record { width = l.width; height = l.height; pixels = l.pixels.items; path = l.path.items; filled = l.filled } };

    ghost invariant = { λ l. (length l.pixels.items ≡ l.height * l.width) × (l.width ≤ most_extent) × (l.height ≤ most_extent) };
}

impl Layer {
    // A layer that was never named.
    pub(crate) fn new(alloc: Global) -> Layer
        ensures { result ≡ kept_empty }
    {
        Layer {
            width: 0,
            height: 0,
            pixels: Vec::new(alloc),
            path: Vec::new(alloc),
            filled: false,
        }
    }

    pub(crate) fn width(&self) -> u32
        ensures { result ≡ self.now.width }
    {
        self.width
    }

    pub(crate) fn height(&self) -> u32
        ensures { result ≡ self.now.height }
    {
        self.height
    }

    // Sets the size; the common part stays, and the rest is clear.
    pub(crate) fn resize(&mut self, alloc: Global, width: u32, height: u32) -> Result<(), NoMemory>
        requires columns { width ≤ most_extent }
        requires rows { height ≤ most_extent }
        ensures ok { OnOk result (IsSized self.old width height self.new) }
        ensures unchanged { OnErr result (self.new ≡ self.old) }
    {
        let pixels = resized(alloc, &self.pixels, self.width, self.height, width, height)?;
        self.width = width;
        self.height = height;
        self.pixels = pixels;
        Ok(())
    }

    // The rectangle joins the path, or begins a new one where the path was filled.
    pub(crate) fn trace(&mut self, rectangle: Rectangle) -> Result<(), NoMemory>
        ensures ok { OnOk result (self.new ≡ kept_traced self.old rectangle) }
        ensures unchanged { OnErr result (self.new ≡ self.old) }
    {
        self.path.reserve(1)?;
        if self.filled {
            self.path.clear();
        }
        self.path.push(rectangle)?;
        self.filled = false;
        Ok(())
    }

    // Every pixel that the path covers has the colour. The path stays, to be filled again or to give
    // way to the next rectangle.
    pub(crate) fn paint(&mut self, colour: Colour)
        ensures { IsPainted self.old colour self.new }
    {
        fill_path(
            &mut self.pixels,
            self.width,
            self.height,
            &self.path,
            colour,
        );
        self.filled = true;
    }

    // The rectangle `area`, which lies in the layer, row by row in place of what `part` has.
    pub(crate) fn read(
        &self,
        part: &mut Vec<Option<Colour>>,
        area: Rectangle,
    ) -> Result<(), NoMemory>
        requires columns { area.x + area.width ≤ self.now.width }
        requires rows { area.y + area.height ≤ self.now.height }
        ensures { OnOk result (Shows part.new.items area.width area.height (λ x y. pixel_in self.now.pixels self.now.width (area.x + x) (area.y + y))) }
    {
        take_part(part, &self.pixels, self.width, area)
    }

    // The part, `width` by `height` pixels row by row, comes to column `x` and row `y`; where it is
    // clear, the layer stays.
    pub(crate) fn put(&mut self, part: &[Option<Colour>], x: u32, y: u32, width: u32, height: u32)
        requires part { length part.now ≡ height * width }
        requires columns { x + width ≤ self.old.width }
        requires rows { y + height ≤ self.old.height }
        ensures { HasPart self.old part.now x y width height self.new }
    {
        let area = Rectangle::new(0, 0, width, height);
        overlay(&mut self.pixels, self.width, x, y, part, width, area);
    }

    // What a place of the layer shows.
    pub(crate) fn dot(&self, x: u32, y: u32) -> Dot
        ensures { result ≡ kept_dot self.now x y }
    {
        if x >= self.width || y >= self.height {
            return Dot::Outside;
        }
        match self.pixels[y as usize * self.width as usize + x as usize] {
            None => Dot::Clear,
            Some(colour) => Dot::Painted(colour),
        }
    }

    // Whether the layers have equal sizes and equal pixels.
    pub(crate) fn is_alike(&self, other: &Layer) -> bool
        ensures { IsTrue result ↔ IsKeptAlike self.now other.now }
    {
        self.width == other.width
            && self.height == other.height
            && is_same(&self.pixels, &other.pixels)
    }
}
