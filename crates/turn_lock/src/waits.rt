//! Waiting for the own ticket, and waking those that wait.
ghost use Rattle.std.specs.Prelude.{◌≡◌, Some};

use crate::kept::Kept;
use crate::lock::TurnLock;
use crate::pass::Pass;
use crate::steps::{NEXT, SERVING};
use std::hint::spin_loop;
use std::sync::Wait;

// How often a pass looks before it sleeps, where at most `NEAR` turns end before its own begins. With
// more before it, it sleeps at once: whoever has its turn may be without a processor, which looks would keep from it.
const LOOKS: u32 = 100;

const NEAR: u64 = 1;

impl<V: Kept + Drop> TurnLock<V> {
    ghost use Rattle.turn_lock.specs.Passes.{name_of, lock_of, view_of, IsOutside, IsWaiting};
    ghost use Rattle.turn_lock.specs.Steps.{HasEntered};
    ghost use Rattle.turn_lock.specs.Views.{with_ticket, HasPlaces};

    // Draws a ticket. Once the last is drawn it waits for ever.
    pub(crate) fn queue<R: Wait>(&self, rt: &R, pass: &mut Pass<V>) -> u64
        requires outside { IsOutside self.now pass.old }
        ensures waiting { IsWaiting self.now pass.new }
        ensures view { view_of pass.new ≡ with_ticket result (view_of pass.old) }
    {
        for _ in rt.forever() {
            let ticket = self.table.shared.peek(NEXT);
            if ticket == u64::MAX {
                self.table.shared.park(rt, NEXT, u32::MAX);
            } else if self.draw(pass, ticket) {
                return ticket;
            }
        }
        unreachable!()
    }

    // Waits until the ticket is served. The pass is then inside.
    pub(crate) fn enter<R: Wait>(&self, rt: &R, pass: &mut Pass<V>, ticket: u64)
        requires waiting { IsWaiting self.now pass.old }
        requires ticket { (view_of pass.old).ticket ≡ Some ticket }
        ensures lock { lock_of pass.new ≡ name_of self.now }
        ensures entered { HasEntered V.stands pass.old.seat.me pass.new.seat.me }
        ensures places { HasPlaces V.mark (view_of pass.new) }
    {
        for _ in rt.forever() {
            let served = self.look(pass);
            if served == ticket {
                return;
            }
            self.wait(rt, served, ticket);
        }
        unreachable!()
    }

    // Waits until the ticket is served, or not so long, where `served` was before.
    fn wait<R: Wait>(&self, rt: &R, served: u64, ticket: u64) {
        if ticket.wrapping_sub(served) <= NEAR && self.sees_another(served) {
            return;
        }
        let bed = self.beds.of(ticket);
        let rings = bed.rings();
        if self.table.shared.peek(SERVING) != ticket {
            bed.wait(rt, rings);
        }
    }

    // Looks for a while whether another ticket than `served` is.
    fn sees_another(&self, served: u64) -> bool {
        for _ in 0..LOOKS {
            if self.table.shared.peek(SERVING) != served {
                return true;
            }
            spin_loop();
        }
        false
    }

    // Wakes the pass whose ticket is served now. A pass reads the number of its bed's rings before it looks whether its
    // ticket is served, so it doesn't fall asleep where it is rung behind that.
    pub(crate) fn wake(&self) {
        self.beds.of(self.table.shared.peek(SERVING)).ring();
    }
}
