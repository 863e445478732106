//! What the body of a write asks.

ghost use Rattle.std.specs.Prelude.{◌≡◌, ◌≤◌, drop, length, OnErr, OnOk};
ghost use Rattle.http_tunnel.specs.Bodies.{HasRead, IsPutBehind, TakesNext, is_disconnect, with_act};

use gate_model::Act;
use gate_model::limits::MOST_ACTS;
use guac_framing::{Next, next_instruction};
use guac_instr::read_client;
use std::alloc::{AllocError, Global};
use std::marker::Model;

/// The acts of a body, up to the first instruction that asks for an end, and whether one does.
#[derive(Drop)]
pub(crate) struct Wanted {
    pub acts: Vec<Act>,
    pub ends: bool,
}

impl Model for Wanted {
    ghost use Rattle.http_tunnel.specs.Bodies.{Wish};

    ghost Value = { Wish };

    ghost view = { λ w. record { acts = w.acts.items; ends = w.ends } };
}

/// Why a body can't be read.
#[derive(Clone, Copy)]
pub(crate) enum BodyFault {
    Form,
    NoMemory,
}

// Whether the viewer asks for an end.
fn is_end(act: Act) -> bool
    ensures { result ≡ is_disconnect act }
{
    match act {
        Act::Disconnect => true,
        Act::Key { .. } | Act::Mouse { .. } | Act::Sync { .. } | Act::Size { .. } | Act::Nop => {
            false
        }
    }
}

impl Wanted {
    // One instruction more, with its act if it has one.
    fn add(&mut self, act: Option<Act>) -> Result<(), AllocError>
        ensures added { OnOk result (self.new ≡ with_act self.old act) }
        ensures wanting { OnErr result (IsPutBehind self.old act) }
    {
        if self.ends {
            return Ok(());
        }
        let Some(act) = act else {
            return Ok(());
        };
        if is_end(act) {
            self.ends = true;
        } else {
            self.acts.push(act)?;
        }
        Ok(())
    }
}

// Takes up the instruction at the front of the bytes, and says how many bytes it has.
fn take_next(wanted: &mut Wanted, rest: &[u8]) -> Result<usize, BodyFault>
    ensures { TakesNext wanted.old wanted.new rest.now result }
{
    match next_instruction(rest) {
        Next::Whole(frame, count) => match wanted.add(read_client(&frame)) {
            Ok(()) => Ok(count),
            Err(_) => Err(BodyFault::NoMemory),
        },
        Next::More => Err(BodyFault::Form),
        Next::Bad(_) => Err(BodyFault::Form),
    }
}

// The bytes behind the first so many.
fn behind(bytes: &[u8], count: usize) -> &[u8]
    requires { count ≤ length bytes.now }
    ensures { result.now ≡ drop count bytes.now }
{
    &bytes[count..]
}

/// Reads a body of whole instructions, of which there may be 4,096.
pub(crate) fn read_body(alloc: Global, body: &[u8]) -> Result<Wanted, BodyFault>
    ensures { HasRead body.now result }
{
    let mut wanted = Wanted {
        acts: Vec::new(alloc),
        ends: false,
    };
    let mut rest = body;
    'reading: for _before in 0..MOST_ACTS + 1 {
        if rest.is_empty() {
            return Ok(wanted);
        }
        match take_next(&mut wanted, rest) {
            Ok(count) => rest = behind(rest, count),
            Err(fault) => return Err(fault),
        }
    }
    Err(BodyFault::Form)
}
