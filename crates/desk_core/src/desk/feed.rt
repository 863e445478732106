//! Bytes of the Telnet host.

ghost use Rattle.std.specs.Prelude.{◌≡◌, ◌+◌, ◌≤◌, ◌^◌, [], IfOk, OnErr, OnOk};
ghost use Rattle.gate_model.specs.session.History.{History};
ghost use Rattle.gate_model.specs.session.Refusals.{feed_refusal};
ghost use Rattle.gate_model.specs.declared.event.Event.TheVariants.{Feed};

use crate::desk::Desk;
use crate::drawing::{next_stamp, put};
use crate::host::Heard;
use gate_model::{FeedRefusal, NoMemory};
use std::alloc::Global;

impl Desk {
    ghost use Rattle.gate_model.specs.session.Calls.{IsPiece};
    ghost use Rattle.desk_core.specs.Desk.{Stands};
    ghost use Rattle.desk_core.specs.Calls.{Ended, feed_answer};
    ghost use Rattle.desk_core.specs.Parts.{Follows};

    /// Takes 1 to 65,536 bytes of the Telnet host at the moment `now`, draws a frame, whose stamp it
    /// answers, and lets wait what the bytes are answered: option answers and reports, in the order of
    /// the bytes that complete their causes (RFC 854 and 855; this project's own rule).
    pub fn feed(&mut self, alloc: Global, bytes: &[u8], now: u64) -> Result<u64, FeedRefusal>
        requires { IsPiece bytes.now }
        ensures step { (h : History) → Stands self.old h → Ended h (Feed bytes.now now) (feed_answer result) self.old self.new [] [] }
        ensures unchanged { OnErr result (self.new ≡ self.old) }
        ensures counts { OnOk result (self.new.entries ≡ self.old.entries + 1) }
        ensures few { OnOk result (self.new.entries ≤ 2 ^ 40) }
    {
        if let Some(refusal) = self.feed_refusal() {
            return Err(refusal);
        }
        let stamp = next_stamp(self.frames.stamp(), now);
        let heard = self.heard(alloc, bytes)?;
        let drawn = self.drawing.draw(alloc, &heard.host.screen, stamp)?;
        let (replies, frame) = (&heard.replies, &drawn.frame);
        put(
            alloc,
            replies,
            frame,
            stamp,
            &mut self.outgoing,
            &mut self.frames,
        )?;
        self.log.feed(bytes, stamp, frame);
        self.drawing.show(drawn);
        self.host = heard.host;
        Ok(stamp)
    }

    // Why bytes are refused, if they are.
    fn feed_refusal(&self) -> Option<FeedRefusal>
        ensures { (h : History) → Stands self.now h → result ≡ feed_refusal h }
    {
        if let Some(cause) = self.cause {
            return Some(FeedRefusal::Closed(cause));
        }
        if self.log.is_full(self.setup.entries) {
            let entries = self.log.entries();
            return Some(FeedRefusal::Worn { entries });
        }
        None
    }

    // What the bytes leave, and what they are answered.
    fn heard(&self, alloc: Global, bytes: &[u8]) -> Result<Heard, NoMemory>
        ensures { (h : History) → Stands self.now h → IfOk result (Follows h bytes.now) }
    {
        let (cols, rows) = (self.drawing.cols(), self.drawing.rows());
        self.host
            .hear(alloc, bytes, cols, rows, self.setup.term.as_str())
    }
}
