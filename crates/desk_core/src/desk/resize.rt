//! Changes of size.

ghost use Rattle.std.specs.Prelude.{◌≡◌, ◌+◌, ◌≤◌, ◌^◌, [], OnErr, OnOk};
ghost use Rattle.gate_model.specs.session.History.{History};
ghost use Rattle.gate_model.specs.session.Refusals.{has_size, resize_refusal};
ghost use Rattle.gate_model.specs.declared.event.Event.TheVariants.{Resize};

use crate::desk::Desk;
use crate::drawing::put;
use crate::typing::types;
use gate_model::ResizeRefusal;
use std::alloc::Global;

impl Desk {
    ghost use Rattle.gate_model.specs.terminal.Sizes.{IsScreenSize};
    ghost use Rattle.desk_core.specs.Desk.{Stands};
    ghost use Rattle.desk_core.specs.Calls.{Ended, resize_answer};

    /// Gives the screen another size, of 1 to 512 columns and 1 to 256 rows, for a viewer with the role Control. It draws a
    /// frame, whose stamp, the next one whatever the clock says, it answers, and lets the size wait for the Telnet host
    /// where that is told it (RFC 1073; this project's own rule).
    pub fn resize(
        &mut self,
        alloc: Global,
        viewer: u32,
        cols: u16,
        rows: u16,
    ) -> Result<u64, ResizeRefusal>
        requires { IsScreenSize cols rows }
        ensures step { (h : History) → Stands self.old h → Ended h (Resize viewer cols rows) (resize_answer result) self.old self.new [] [] }
        ensures unchanged { OnErr result (self.new ≡ self.old) }
        ensures counts { OnOk result (self.new.entries ≡ self.old.entries + 1) }
        ensures few { OnOk result (self.new.entries ≤ 2 ^ 40) }
    {
        if let Some(refusal) = self.resize_refusal(viewer, cols, rows) {
            return Err(refusal);
        }
        let stamp = self.frames.stamp() + 1;
        let turned = self.host.turned(alloc, cols, rows)?;
        let drawn = self.drawing.redraw(alloc, &turned.host.screen, stamp)?;
        let (told, frame) = (&turned.replies, &drawn.frame);
        put(
            alloc,
            told,
            frame,
            stamp,
            &mut self.outgoing,
            &mut self.frames,
        )?;
        self.log.size(viewer, cols, rows, stamp, frame);
        self.drawing.show(drawn);
        self.host = turned.host;
        Ok(stamp)
    }

    // Why a change of size is refused, if it is.
    fn resize_refusal(&self, viewer: u32, cols: u16, rows: u16) -> Option<ResizeRefusal>
        ensures { (h : History) → Stands self.now h → result ≡ resize_refusal h viewer cols rows }
    {
        if !self.book.is_live(viewer) {
            return Some(ResizeRefusal::NoViewer);
        }
        if let Some(cause) = self.cause {
            return Some(ResizeRefusal::Closed(cause));
        }
        if !types(self.role(viewer)) {
            return Some(ResizeRefusal::Denied);
        }
        if self.has_size(cols, rows) {
            return Some(ResizeRefusal::Same);
        }
        if self.log.is_full(self.setup.entries) {
            let entries = self.log.entries();
            return Some(ResizeRefusal::Worn { entries });
        }
        None
    }

    // Whether this size is in force: that of the screen that the newest frame shows.
    fn has_size(&self, cols: u16, rows: u16) -> bool
        ensures { (h : History) → Stands self.now h → result ≡ has_size h cols rows }
    {
        self.drawing.cols() == cols && self.drawing.rows() == rows
    }
}
