//! A screen that is fed and gets other sizes, and what came of each.

use crate::redraw::redraw;
use crate::seen::{Seen, changed, differing};
use crate::terminal::Terminal;
use crate::viewer::Viewer;
use anyhow::Result;
use canvas::Canvas;
use gate_model::Shown;
use std::alloc::Global;
use try_canvases::{is_alike, play_all};

/// The most buffers, up to which a frame's length has a bound (this project's own rule).
const MOST_BUFFERS: usize = 1_024;

/// What came of a feed, or of another size.
#[derive(Clone, Copy)]
pub struct Outcome {
    /// The viewer sees what a drawing of the whole screen shows.
    pub is_alike: bool,
    /// At most 1,024 keys were seen.
    pub is_bounded: bool,
    /// The frame is no longer than its changes and its new keys allow.
    pub is_within: bool,
}

impl Outcome {
    /// The picture is right, and so is the length, where it is bounded.
    pub fn is_right(self) -> bool {
        self.is_alike && (self.is_within || !self.is_bounded)
    }
}

/// A terminal, its viewer, and the keys that were seen.
#[derive(Drop)]
pub struct Trial {
    terminal: Terminal,
    viewer: Viewer,
    seen: Seen,
}

impl Trial {
    /// A screen of this size that was fed nothing.
    pub fn new(alloc: Global, cols: u16, rows: u16) -> Result<Trial> {
        let terminal = Terminal::new(alloc, cols, rows)?;
        let viewer = Viewer::new(alloc, terminal.shown(alloc)?)?;
        let mut seen = Seen::new(alloc)?;
        seen.add(viewer.shown());
        Ok(Trial {
            terminal,
            viewer,
            seen,
        })
    }

    /// Feeds bytes.
    pub fn feed(&mut self, alloc: Global, bytes: &[u8]) -> Result<Outcome> {
        let shift = self.terminal.hear(bytes);
        let shown = self.terminal.shown(alloc)?;
        let most = self.most(&shown, shift);
        let count = self.viewer.follow(alloc, shown, shift)?;
        Ok(Outcome {
            is_alike: is_redrawn(alloc, &self.viewer)?,
            is_bounded: self.seen.count() <= MOST_BUFFERS,
            is_within: count <= most,
        })
    }

    /// Gives the screen another size.
    pub fn resize(&mut self, alloc: Global, cols: u16, rows: u16) -> Result<Outcome> {
        self.terminal.resize(alloc, cols, rows)?;
        let shown = self.terminal.shown(alloc)?;
        let most = self.most_of_size(&shown);
        let count = self.viewer.refit(alloc, shown)?;
        Ok(Outcome {
            is_alike: is_redrawn(alloc, &self.viewer)?,
            is_bounded: self.seen.count() <= MOST_BUFFERS,
            is_within: count <= most,
        })
    }

    // The most instructions of a frame of another size: the size and the sync, one for each place that is new or shows
    // another key, and forty for each new key.
    fn most_of_size(&mut self, shown: &Shown) -> usize {
        let places = differing(self.viewer.shown(), shown);
        let fresh = self.seen.add(shown);
        fresh
            .saturating_mul(40)
            .saturating_add(places.saturating_add(2))
    }

    // The most instructions that a frame may have: the scroll and the sync, two for each place that changed,
    // and forty for each new key.
    fn most(&mut self, shown: &Shown, shift: u32) -> usize {
        let changed = changed(self.viewer.shown(), shown, shift);
        let fresh = self.seen.add(shown);
        let places = changed.saturating_mul(2).saturating_add(3);
        fresh.saturating_mul(40).saturating_add(places)
    }
}

// Whether the viewer sees what a drawing of the whole screen shows.
fn is_redrawn(alloc: Global, viewer: &Viewer) -> Result<bool> {
    let mut canvas = Canvas::new(alloc);
    redraw_on(&mut canvas, alloc, viewer.shown())?;
    Ok(is_alike(viewer.canvas(), &canvas))
}

fn redraw_on(canvas: &mut Canvas, alloc: Global, shown: &Shown) -> Result<()> {
    let list = redraw(alloc, shown)?;
    play_all(canvas, &list)
}
