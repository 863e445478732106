//! A viewer who follows the screen by frames.

ghost use Rattle.std.specs.Prelude.{◌≡◌, IsTrue};
ghost use Rattle.gate_model.specs.session.Steps.{IsScreenSize};
ghost use Rattle.gate_model.specs.terminal.Screens.{AreColoured};

use anyhow::{Context, Result, bail};
use canvas::Canvas;
use frame_draw::{frame, opening, resized};
use gate_model::{Key, Shown};
use glyph_cache::Cache;
use std::alloc::Global;
use try_canvases::play_all;
use try_words::is_size;

/// What the viewer was drawn last, the glyph buffers, and the canvas on which all frames were played.
#[derive(Drop)]
pub struct Viewer {
    shown: Shown,
    cache: Cache,
    canvas: Canvas,
}

impl Viewer {
    /// One who was given the first frame of the screen.
    pub fn new(alloc: Global, shown: Shown) -> Result<Viewer> {
        let mut cache = Cache::new(alloc).ok().context("no memory")?;
        let mut canvas = Canvas::new(alloc);
        open(alloc, &shown, &mut cache, &mut canvas)?;
        Ok(Viewer {
            shown,
            cache,
            canvas,
        })
    }

    /// What was drawn last.
    pub fn shown(&self) -> &Shown {
        &self.shown
    }

    /// What the viewer sees.
    pub fn canvas(&self) -> &Canvas {
        &self.canvas
    }

    /// Gives the frame to the new screen, which scrolled up by `shift` lines, and answers how many
    /// instructions it has.
    pub fn follow(&mut self, alloc: Global, new: Shown, shift: u32) -> Result<usize> {
        let count = go_on(
            alloc,
            &self.shown,
            &new,
            shift,
            &mut self.cache,
            &mut self.canvas,
        )?;
        self.shown = new;
        Ok(count)
    }

    /// Gives the frame to the new screen of another size, and answers how many instructions it has.
    pub fn refit(&mut self, alloc: Global, new: Shown) -> Result<usize> {
        let count = refit(alloc, &self.shown, &new, &mut self.cache, &mut self.canvas)?;
        self.shown = new;
        Ok(count)
    }
}

fn refit(
    alloc: Global,
    old: &Shown,
    new: &Shown,
    cache: &mut Cache,
    canvas: &mut Canvas,
) -> Result<usize> {
    if !is_sized(new) || !are_coloured(new.as_slice()) {
        bail!("no screen");
    }
    let drawn = resized(alloc, old, new, cache, 1)
        .ok()
        .context("no memory")?;
    let instrs = drawn.as_slice();
    play_all(canvas, instrs)?;
    Ok(instrs.len())
}

fn open(alloc: Global, shown: &Shown, cache: &mut Cache, canvas: &mut Canvas) -> Result<()> {
    if !is_sized(shown) || !are_coloured(shown.as_slice()) {
        bail!("no screen");
    }
    let frame = opening(alloc, shown, cache, 1).ok().context("no memory")?;
    play_all(canvas, frame.as_slice())
}

fn go_on(
    alloc: Global,
    old: &Shown,
    new: &Shown,
    shift: u32,
    cache: &mut Cache,
    canvas: &mut Canvas,
) -> Result<usize> {
    if !is_sized(new) || !are_coloured(new.as_slice()) {
        bail!("no screen");
    }
    if old.cols() != new.cols() || old.rows() != new.rows() {
        bail!("another size");
    }
    let drawn = frame(alloc, old, new, shift, cache, 1)
        .ok()
        .context("no memory")?;
    let instrs = drawn.as_slice();
    play_all(canvas, instrs)?;
    Ok(instrs.len())
}

fn is_sized(shown: &Shown) -> bool
    ensures { IsTrue result → IsScreenSize shown.now.cols shown.now.rows }
{
    is_size(shown.cols(), shown.rows())
}

fn are_coloured(keys: &[Key]) -> bool
    ensures { IsTrue result → AreColoured keys.now }
{
    keys.iter().all(|key| u32::from(key.ink) < 256 && u32::from(key.paper) < 256)
}
