ghost use Rattle.gate_model.specs.Limits.{most_extent};
ghost use Rattle.std.specs.Prelude.{◌≡◌, ◌≢◌, ℕ, ◌+◌, ◌-◌, ◌*◌, min, ◌<◌, ◌≤◌, ◌↔◌, [], IsTrue, length, get_or, unsigned_abs, IfOk, OnOk, OnErr, MatchOption};
ghost use Rattle.gate_model.specs.picture.Layers.{Layers, nothing, play, Same};
ghost use Rattle.gate_model.specs.picture.Shape.{IsLayer};
ghost use Rattle.canvas.specs.Kept.{IsCopied, IsKeptAlike, IsPainted, IsSized, kept_empty, kept_traced};
ghost use Rattle.canvas.specs.Standing.{IsPlayable, KeepsAll, KeepsOthers, Stands, dot_at, kept_at};

use crate::dot::Dot;
use crate::layer::Layer;
use crate::rectangle::Rectangle;
use gate_model::{Colour, Instr, NoMemory};
use std::alloc::Global;
use std::marker::Model;

/// What a viewer shows: the layers of the drawing machine (this project's own rules on top of the
/// Guacamole manual, "Guacamole protocol reference"). Contracts see a canvas as the list of its
/// layers; a layer that was never named takes no memory for pixels, any other 4 bytes a pixel.
#[derive(Drop)]
pub struct Canvas {
    alloc: Global,
    layers: Vec<Layer>,
    part: Vec<Option<Colour>>,
}

impl Model for Canvas {
    ghost use Rattle.std.specs.Prelude.{List};
    ghost use Rattle.canvas.specs.Kept.{KeptLayer};

    ghost Value = { List KeptLayer };

    ghost view = { λ c. c.layers.items };
}

impl Canvas {
    /// A canvas on which nothing was drawn: every layer is 0 by 0 with an empty path. It keeps the
    /// allocator, and takes no memory yet.
    pub fn new(alloc: Global) -> Canvas
        ensures { Stands result nothing }
    {
        Canvas {
            alloc,
            layers: Vec::new(alloc),
            part: Vec::new(alloc),
        }
    }

    /// Plays one instruction: it sizes, traces, fills or copies layers, or changes none (`sync`, `error`
    /// and `disconnect`). Its layers lie from -1,024 to 0 and its size is at most 4,096 by 4,096. It is
    /// refused for want of memory alone, and then changes nothing (the Guacamole manual, "Guacamole
    /// protocol reference"; paths, clear pixels and sizes are this project's own rules).
    pub fn play(&mut self, instr: &Instr) -> Result<(), NoMemory>
        requires { IsPlayable instr.now }
        ensures played { OnOk result ((m : Layers) → Stands self.old m → Stands self.new (play m instr.now)) }
        ensures unchanged { OnErr result ((m : Layers) → Stands self.old m → Stands self.new m) }
    {
        match *instr {
            Instr::Size {
                layer,
                width,
                height,
            } => self.resize(layer, width, height),
            Instr::Rect {
                layer,
                x,
                y,
                width,
                height,
            } => self.trace(layer, Rectangle::new(x, y, width, height)),
            Instr::Cfill {
                layer,
                red,
                green,
                blue,
            } => self.paint(layer, Colour { red, green, blue }),
            Instr::Copy {
                from,
                x,
                y,
                width,
                height,
                to,
                to_x,
                to_y,
            } => self.copy(from, Rectangle::new(x, y, width, height), to, to_x, to_y),
            Instr::Sync { .. } | Instr::Disconnect | Instr::Error { .. } => Ok(()),
        }
    }

    /// What the place of a layer shows, `x` pixels from the left and `y` from the top. A place outside
    /// the layer's size is `Outside`; a layer that was never named has none inside.
    pub fn pixel(&self, layer: i32, x: u32, y: u32) -> Dot
        ensures { (m : Layers) → Stands self.now m → result ≡ dot_at (m layer) x y }
    {
        match self.place(layer) {
            Some(place) => self.layers[place].dot(x, y),
            None => Dot::Outside,
        }
    }

    /// The width and the height of a layer, in pixels; 0 by 0 for one that was never named.
    pub fn layer_size(&self, layer: i32) -> (u32, u32)
        ensures width { (m : Layers) → Stands self.now m → result.0 ≡ (m layer).width }
        ensures height { (m : Layers) → Stands self.now m → result.1 ≡ (m layer).height }
    {
        match self.place(layer) {
            Some(place) => (self.layers[place].width(), self.layers[place].height()),
            None => (0, 0),
        }
    }

    /// Whether every layer has the same size and the same pixels in both canvases.
    pub fn same(&self, other: &Canvas) -> bool
        ensures { (m n : Layers) → Stands self.now m → Stands other.now n → (IsTrue result ↔ Same m n) }
    {
        for place in 0..self.layers.len().max(other.layers.len()) {
            if !self.is_alike(other, place) {
                return false;
            }
        }
        true
    }

    // Whether the layers at a place have the same size and the same pixels.
    fn is_alike(&self, other: &Canvas, place: usize) -> bool
        ensures { IsTrue result ↔ IsKeptAlike (get_or self.now place kept_empty) (get_or other.now place kept_empty) }
    {
        match (self.layers.get(place), other.layers.get(place)) {
            (Some(left), Some(right)) => left.is_alike(right),
            (Some(layer), None) | (None, Some(layer)) => layer.width() == 0 && layer.height() == 0,
            (None, None) => true,
        }
    }

    // The place of a layer, if there is one.
    fn place(&self, layer: i32) -> Option<usize>
        ensures { MatchOption result (kept_at self.now layer ≡ kept_empty) (λ place. (place < length self.now) × (place ≡ unsigned_abs layer) × (kept_at self.now layer ≡ get_or self.now place kept_empty)) }
    {
        let place = layer.unsigned_abs() as usize;
        if layer > 0 || place >= self.layers.len() {
            return None;
        }
        Some(place)
    }

    // Sets the size of a layer.
    fn resize(&mut self, layer: i32, width: u32, height: u32) -> Result<(), NoMemory>
        requires layer { IsLayer layer }
        requires columns { width ≤ most_extent }
        requires rows { height ≤ most_extent }
        ensures ok { OnOk result (IsSized (kept_at self.old layer) width height (kept_at self.new layer)) }
        ensures others { OnOk result (KeepsOthers self.old layer self.new) }
        ensures unchanged { OnErr result (KeepsAll self.old self.new) }
    {
        let place = layer.unsigned_abs() as usize;
        grow(&mut self.layers, self.alloc, place + 1)?;
        self.layers[place].resize(self.alloc, width, height)
    }

    // Adds a rectangle to the path of a layer.
    fn trace(&mut self, layer: i32, rectangle: Rectangle) -> Result<(), NoMemory>
        requires { IsLayer layer }
        ensures ok { OnOk result (kept_at self.new layer ≡ kept_traced (kept_at self.old layer) rectangle) }
        ensures others { OnOk result (KeepsOthers self.old layer self.new) }
        ensures unchanged { OnErr result (KeepsAll self.old self.new) }
    {
        let place = layer.unsigned_abs() as usize;
        grow(&mut self.layers, self.alloc, place + 1)?;
        self.layers[place].trace(rectangle)
    }

    // Fills the path of a layer.
    fn paint(&mut self, layer: i32, colour: Colour) -> Result<(), NoMemory>
        requires { IsLayer layer }
        ensures ok { OnOk result (IsPainted (kept_at self.old layer) colour (kept_at self.new layer)) }
        ensures others { OnOk result (KeepsOthers self.old layer self.new) }
        ensures unchanged { OnErr result (KeepsAll self.old self.new) }
    {
        let place = layer.unsigned_abs() as usize;
        grow(&mut self.layers, self.alloc, place + 1)?;
        self.layers[place].paint(colour);
        Ok(())
    }

    // Copies a rectangle of one layer to a place of another, or of itself.
    fn copy(&mut self, from: i32, area: Rectangle, to: i32, x: u32, y: u32) -> Result<(), NoMemory>
        requires from { IsLayer from }
        requires to { IsLayer to }
        ensures ok { OnOk result (IsCopied (kept_at self.old from) area (kept_at self.old to) x y (kept_at self.new to)) }
        ensures others { OnOk result (KeepsOthers self.old to self.new) }
        ensures unchanged { OnErr result (KeepsAll self.old self.new) }
    {
        let Some(source) = self.place(from) else {
            return Ok(());
        };
        let Some(target) = self.place(to) else {
            return Ok(());
        };
        self.copy_part(source, area, target, x, y)
    }

    // What the source and the target have in common of a rectangle is read first, and then written.
    fn copy_part(
        &mut self,
        source: usize,
        area: Rectangle,
        target: usize,
        x: u32,
        y: u32,
    ) -> Result<(), NoMemory>
        requires source { source < length self.old }
        requires target { target < length self.old }
        ensures ok { OnOk result (IsCopied (get_or self.old source kept_empty) area (get_or self.old target kept_empty) x y (get_or self.new target kept_empty)) }
        ensures others { (k : ℕ) → k ≢ target → get_or self.new k kept_empty ≡ get_or self.old k kept_empty }
        ensures unchanged { OnErr result (self.new ≡ self.old) }
    {
        let (from, to) = (&self.layers[source], &self.layers[target]);
        let width = common(area.width, from.width(), area.x, to.width(), x);
        let height = common(area.height, from.height(), area.y, to.height(), y);
        if width == 0 || height == 0 {
            return Ok(());
        }
        let common = Rectangle {
            width,
            height,
            ..area
        };
        self.layers[source].read(&mut self.part, common)?;
        self.layers[target].put(&self.part, x, y, width, height);
        Ok(())
    }
}

// How much of a length lies in a source from `from` on and in a target from `to` on.
fn common(length: u32, source: u32, from: u32, target: u32, to: u32) -> u32
    ensures { result ≡ min (min length (source - from)) (target - to) }
{
    length
        .min(source.saturating_sub(from))
        .min(target.saturating_sub(to))
}

// There are at least `count` layers; those that come in are empty.
fn grow(layers: &mut Vec<Layer>, alloc: Global, count: usize) -> Result<(), NoMemory>
    ensures long { OnOk result (count ≤ length layers.new.items) }
    ensures same { KeepsAll layers.old.items layers.new.items }
{
    for _number in layers.len()..count {
        layers.push(Layer::new(alloc))?;
    }
    Ok(())
}
