//! A session that is closed at the end of its link.

ghost use Rattle.std.specs.Prelude.{◌≡◌};
ghost use Rattle.session_link.specs.Closings.{HasClosed, HasEnded};
ghost use Rattle.session_link.specs.Senders.{HasClosedSending, HasShut};

use crate::{PumpEnd, SenderEnd};
use gate_model::Cause;
use gate_outside::Bell;
use shared_desk::{LinkPass, SenderPass};
use std::sync::Wait;

// Closes the session where the pump's end asks for it, and rings.
pub(crate) fn close_after<R: Wait, B: Bell>(rt: &R, pass: &mut LinkPass, bell: &B, end: PumpEnd)
    ensures session { pass.new.session ≡ pass.old.session }
    ensures ended { HasEnded end pass.old.view pass.new.view }
{
    match end {
        PumpEnd::LinkEnded => close_link(rt, pass, bell, Cause::ServerEnd),
        PumpEnd::ReadFault => close_link(rt, pass, bell, Cause::LinkFault),
        PumpEnd::Worn => close_link(rt, pass, bell, Cause::Worn),
        PumpEnd::Closed(_) | PumpEnd::NoMemory => {}
    }
}

// Closes the session where it is open, and then rings.
fn close_link<R: Wait, B: Bell>(rt: &R, pass: &mut LinkPass, bell: &B, cause: Cause)
    ensures session { pass.new.session ≡ pass.old.session }
    ensures closed { HasClosed cause pass.old.view pass.new.view }
{
    if pass.close(rt, cause).is_ok() {
        bell.ring_all(pass.spots());
    }
}

// Closes the session where the sender's end asks for it, and rings.
pub(crate) fn shut_after<R: Wait, B: Bell>(rt: &R, pass: &mut SenderPass, bell: &B, end: SenderEnd)
    ensures session { pass.new.session ≡ pass.old.session }
    ensures shut { HasShut end pass.old.view pass.new.view }
{
    match end {
        SenderEnd::Ended => {}
        SenderEnd::WriteFault => close_sending(rt, pass, bell),
    }
}

// Closes the session where it is open, and then rings.
fn close_sending<R: Wait, B: Bell>(rt: &R, pass: &mut SenderPass, bell: &B)
    ensures session { pass.new.session ≡ pass.old.session }
    ensures closed { HasClosedSending pass.old.view pass.new.view }
{
    if pass.close(rt, Cause::LinkFault).is_ok() {
        bell.ring_all(pass.spots());
    }
}
