//! A request that writes for a viewer.

ghost use Rattle.std.specs.Prelude.{◌≡◌, ◌≤◌, Bool, true, None, IfErr, IfSome, is_some, length};
ghost use Rattle.gate_model.specs.Limits.{most_acts};
ghost use Rattle.id_table.specs.Maps.{Changed, IsLent, Told};
ghost use Rattle.shared_desk.specs.Members.{Stays};
ghost use Rattle.http_tunnel.specs.Places.{HasGiven, IsOfTunnel};
ghost use Rattle.http_tunnel.specs.Requests.{IsTunnelRefusal};
ghost use Rattle.http_tunnel.specs.Tunnels.{AreHome};
ghost use Rattle.http_tunnel.specs.Writes.{HasLeft, HasPut, WriteOf, WritesBody, WritesWish, is_ended, refused_write, without_value};

use crate::acts::{BodyFault, Wanted, read_body};
use crate::giving::give_back;
use crate::tunnel::Tunnel;
use desk_core::WriteRefusal;
use gate_outside::Bell;
use guac_handshake::Door;
use http_front::Refusal;
use id_table::Shelf;
use shared_desk::{Place, WriterPass};
use std::alloc::Global;
use std::sync::Wait;
use uuid::Uuid;
use viewer_acts::{leave, write_acts};

fn refused_write(refusal: WriteRefusal) -> Refusal
    ensures { result ≡ refused_write refusal }
{
    match refusal {
        WriteRefusal::NoViewer => Refusal::NotFound,
        WriteRefusal::Closed(_) | WriteRefusal::Worn { .. } => Refusal::Closed,
        WriteRefusal::NoMemory => Refusal::NoMemory,
    }
}

// The viewer leaves, where its body asks for an end.
fn leave_at<R: Wait, B: Bell>(rt: &R, writer: &mut WriterPass, ends: bool, bell: &B)
    ensures stays { Stays writer.old writer.new }
    ensures left { HasLeft writer.old.viewer writer.old.view writer.new.view ends }
{
    if ends {
        leave(rt, writer, bell);
    }
}

// Does what a body asks, and answers whether it asks for an end. Where one of its acts is refused the viewer doesn't
// leave.
fn write_wish<R: Wait, B: Bell>(
    rt: &R,
    alloc: Global,
    writer: &mut WriterPass,
    wanted: &Wanted,
    bell: &B,
) -> Result<bool, Refusal>
    requires { length wanted.now.acts ≤ most_acts }
    ensures stays { Stays writer.old writer.new }
    ensures wrote { WritesWish writer.old.viewer writer.old.view writer.new.view wanted.now result }
{
    match write_acts(rt, alloc, writer, &wanted.acts, bell) {
        Ok(()) => {
            leave_at(rt, writer, wanted.ends, bell);
            Ok(wanted.ends)
        }
        Err(refusal) => Err(refused_write(refusal)),
    }
}

// Reads a body and does what it asks.
fn write_body<R: Wait, B: Bell>(
    rt: &R,
    alloc: Global,
    writer: &mut WriterPass,
    body: &[u8],
    bell: &B,
) -> Result<bool, Refusal>
    ensures stays { Stays writer.old writer.new }
    ensures wrote { WritesBody writer.old.viewer writer.old.view writer.new.view body.now result }
{
    match read_body(alloc, body) {
        Ok(wanted) => write_wish(rt, alloc, writer, &wanted, bell),
        Err(BodyFault::Form) => Err(Refusal::Form),
        Err(BodyFault::NoMemory) => Err(Refusal::NoMemory),
    }
}

// Whether a write ended its tunnel.
fn is_ended(done: &Result<bool, Refusal>) -> bool
    ensures { result ≡ is_ended done.now }
{
    match done {
        Ok(ended) => *ended,
        Err(_) => false,
    }
}

fn without_value(done: Result<bool, Refusal>) -> Result<(), Refusal>
    ensures { result ≡ without_value done }
{
    match done {
        Ok(_) => Ok(()),
        Err(refusal) => Err(refusal),
    }
}

// Removes a tunnel that was lent, and gives its place to the door. Where a read has its reader's pass, it is put back
// and goes at the end of that read.
fn remove_written<R: Wait, T: Shelf<Tunnel>, D: Door<Place = Place>>(
    rt: &R,
    tunnels: &mut T,
    id: &Uuid,
    door: &mut D,
    mut tunnel: Tunnel,
)
    requires lent { IfSome (T.told tunnels.old) (IsLent id.now) }
    requires home { IfSome (T.told tunnels.old) (λ m. is_some tunnel.reader ≡ true) }
    ensures { (back : Bool) × HasGiven D.id_of (λ name. IfSome (T.told tunnels.old) (λ _. name ≡ tunnel.id)) back (D.view door.old) (D.view door.new) × Told (T.told tunnels.old) (T.told tunnels.new) (λ m n. (back ≡ true) × Changed id.now None m n) }
{
    let here = tunnel.reader.is_some();
    tunnel.gone = true;
    tunnels.back(rt, id, tunnel);
    if here {
        match tunnels.remove(rt, id) {
            Some(tunnel) => give_back(rt, door, tunnel),
            None => {}
        }
    }
}

// Puts back a tunnel that was lent, or removes it where a write ended it.
fn end_write<R: Wait, T: Shelf<Tunnel>, D: Door<Place = Place>>(
    rt: &R,
    tunnels: &mut T,
    id: &Uuid,
    door: &mut D,
    tunnel: Tunnel,
    ended: bool,
)
    requires lent { IfSome (T.told tunnels.old) (IsLent id.now) }
    requires home { IfSome (T.told tunnels.old) (λ m. is_some tunnel.reader ≡ true) }
    ensures { (back : Bool) × HasGiven D.id_of (λ name. IfSome (T.told tunnels.old) (λ _. name ≡ tunnel.id)) back (D.view door.old) (D.view door.new) × Told (T.told tunnels.old) (T.told tunnels.new) (HasPut id.now tunnel ended back) }
{
    if ended {
        remove_written(rt, tunnels, id, door, tunnel);
    } else {
        tunnels.back(rt, id, tunnel);
    }
}

/// Writes the acts of a body for the viewer of a tunnel, those that ask for a size by a change of size. A `disconnect` leaves for the viewer and removes the tunnel.
pub(crate) fn write<R: Wait, T: Shelf<Tunnel>, D: Door<Place = Place>, B: Bell>(
    rt: &R,
    alloc: Global,
    tunnels: &mut T,
    id: &Uuid,
    body: &[u8],
    door: &mut D,
    bell: &B,
) -> Result<(), Refusal>
    requires { AreHome (T.told tunnels.old) }
    ensures home { AreHome (T.told tunnels.new) }
    ensures kind { IfErr result IsTunnelRefusal }
    ensures wrote { (back : Bool) × HasGiven D.id_of (IsOfTunnel id.now (T.told tunnels.old)) back (D.view door.old) (D.view door.new) × Told (T.told tunnels.old) (T.told tunnels.new) (WriteOf id.now body.now back result) }
{
    match tunnels.lend(rt, id) {
        Some(lent) => {
            let mut tunnel = lent;
            let done = write_body(rt, alloc, &mut tunnel.writer, body, bell);
            end_write(rt, tunnels, id, door, tunnel, is_ended(&done));
            without_value(done)
        }
        None => Err(Refusal::NotFound),
    }
}
