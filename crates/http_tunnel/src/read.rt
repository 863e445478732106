//! A request for what a viewer is given.

ghost use Rattle.std.specs.Prelude.{◌≡◌, ◌||◌, ◌++◌, ℕ, List, Bool, true, IfErr, IfSome, Some, None, Result};
ghost use Rattle.id_table.specs.Maps.{Changed, IsLent, Told};
ghost use Rattle.shared_desk.specs.Members.{Stays};
ghost use Rattle.http_tunnel.specs.Places.{HasGiven, IsOfTunnel};
ghost use Rattle.http_tunnel.specs.Reads.{HasRead, mark_of};
ghost use Rattle.http_tunnel.specs.Requests.{IsTunnelRefusal};
ghost use Rattle.http_tunnel.specs.Tunnels.{AreHome, GivesReader, HasBegun, HasEnded, HasEndedOf, HasTaken, HasTakenFrom, IsAnswered, ReadOf, answer_with, is_end, is_last, kept_with, refused_read};
ghost use Rattle.http_tunnel.specs.declared.reading.TunnelEnd.{TunnelEnd};
ghost use Rattle.http_tunnel.specs.declared.reading.TunnelRefusal.{TunnelRefusal};
ghost use Rattle.http_tunnel.specs.declared.tunnel.Tunnel.{Tunnel};

use crate::giving::give;
use crate::reading::{TunnelEnd, TunnelRefusal, Waits, read_within};
use crate::tunnel::Tunnel;
use gate_model::Bytes;
use gate_outside::Bell;
use guac_handshake::Door;
use http_front::Refusal;
use id_table::Shelf;
use shared_desk::{Place, ReaderPass};
use std::alloc::Global;
use std::mem;
use std::sync::Wait;
use uuid::Uuid;

// What a read takes out of its tunnel.
#[derive(Drop)]
pub(crate) struct Lent {
    pub reader: ReaderPass,
    pub kept: Bytes,
}

// What a look at a tunnel came to.
#[derive(Drop)]
pub(crate) enum Taken {
    // There is no tunnel.
    Absent,
    // Another read has its reader's pass.
    Away,
    Lent(Lent),
}

// Takes the reader's pass and the text out of a tunnel, where no other read has it.
fn take_reader(alloc: Global, tunnel: &mut Tunnel) -> Option<Lent>
    ensures { GivesReader tunnel.old tunnel.new result }
{
    match tunnel.reader.take() {
        Some(reader) => {
            let kept = mem::replace(&mut tunnel.kept, Bytes::of(Vec::new(alloc)));
            Some(Lent { reader, kept })
        }
        None => None,
    }
}

// The same of a tunnel that was lent, which is put back.
fn take_from<R: Wait, T: Shelf<Tunnel>>(
    rt: &R,
    alloc: Global,
    tunnels: &mut T,
    id: &Uuid,
    mut tunnel: Tunnel,
) -> Taken
    requires { IfSome (T.told tunnels.old) (IsLent id.now) }
    ensures { Told (T.told tunnels.old) (T.told tunnels.new) (HasTakenFrom id.now tunnel result) }
{
    let taken = take_reader(alloc, &mut tunnel);
    tunnels.back(rt, id, tunnel);
    match taken {
        Some(lent) => Taken::Lent(lent),
        None => Taken::Away,
    }
}

// The same of the tunnel of an ID.
fn take_out<R: Wait, T: Shelf<Tunnel>>(rt: &R, alloc: Global, tunnels: &mut T, id: &Uuid) -> Taken
    requires { AreHome (T.told tunnels.old) }
    ensures { Told (T.told tunnels.old) (T.told tunnels.new) (λ m n. HasTaken id.now m n result) }
{
    match tunnels.lend(rt, id) {
        Some(tunnel) => take_from(rt, alloc, tunnels, id, tunnel),
        None => Taken::Absent,
    }
}

// The same, once no other read has it. None where there is no tunnel.
fn begin_read<R: Wait, T: Shelf<Tunnel>, B: Bell>(
    rt: &R,
    alloc: Global,
    tunnels: &mut T,
    id: &Uuid,
    bell: &B,
) -> Option<Lent>
    requires { AreHome (T.told tunnels.old) }
    ensures { Told (T.told tunnels.old) (T.told tunnels.new) (λ m n. HasBegun id.now m n result) }
{
    for _ in rt.forever() {
        match take_out(rt, alloc, tunnels, id) {
            Taken::Absent => return None,
            Taken::Away => bell.wait(rt),
            Taken::Lent(lent) => return Some(lent),
        }
    }
    unreachable!()
}

// What a read leaves of its tunnel: the text that is still to be handed out, and whether the tunnel goes.
#[derive(Drop)]
pub(crate) struct Left {
    pub kept: Bytes,
    pub ended: bool,
}

fn refused_read(refusal: TunnelRefusal) -> Refusal
    ensures { result ≡ refused_read refusal }
{
    match refusal {
        TunnelRefusal::NoViewer => Refusal::NotFound,
        TunnelRefusal::Worn { .. } => Refusal::Closed,
        TunnelRefusal::NoMemory => Refusal::NoMemory,
    }
}

// Removes a tunnel that was put back, and gives its place to the door.
fn remove_read<R: Wait, T: Shelf<Tunnel>, D: Door<Place = Place>>(
    rt: &R,
    tunnels: &mut T,
    id: &Uuid,
    door: &mut D,
    reader: ReaderPass,
)
    requires { IfSome (T.told tunnels.old) (λ m. (t : Tunnel) × (m id.now ≡ Some (Some t))) }
    ensures { (back : Bool) × HasGiven D.id_of (IsOfTunnel id.now (T.told tunnels.old)) back (D.view door.old) (D.view door.new) × Told (T.told tunnels.old) (T.told tunnels.new) (λ m n. (back ≡ true) × Changed id.now None m n) }
{
    match tunnels.remove(rt, id) {
        Some(tunnel) => give(rt, door, tunnel, reader),
        None => {}
    }
}

// Whether a tunnel goes at the end of a read.
fn goes(left: &Left, tunnel: &Tunnel) -> bool
    ensures { result ≡ (left.now.ended || tunnel.now.gone) }
{
    left.ended || tunnel.gone
}

// Whether nothing comes behind the end of a read.
fn is_last(end: TunnelEnd) -> bool
    ensures { result ≡ is_last end }
{
    match end {
        TunnelEnd::Open => false,
        TunnelEnd::Ended => true,
    }
}

// Puts the reader's pass and the text back into a tunnel that was lent, or removes it and gives its place to the door.
fn end_lent<R: Wait, T: Shelf<Tunnel>, D: Door<Place = Place>>(
    rt: &R,
    tunnels: &mut T,
    id: &Uuid,
    door: &mut D,
    mut tunnel: Tunnel,
    reader: ReaderPass,
    left: Left,
)
    requires { IfSome (T.told tunnels.old) (IsLent id.now) }
    ensures { (back : Bool) × HasGiven D.id_of (λ name. IfSome (T.told tunnels.old) (λ _. name ≡ tunnel.id)) back (D.view door.old) (D.view door.new) × Told (T.told tunnels.old) (T.told tunnels.new) (HasEndedOf id.now tunnel reader left back) }
{
    if goes(&left, &tunnel) {
        tunnels.back(rt, id, tunnel);
        remove_read(rt, tunnels, id, door, reader);
    } else {
        tunnel.kept = left.kept;
        tunnel.reader = Some(reader);
        tunnels.back(rt, id, tunnel);
    }
}

// The same of the tunnel of an ID.
fn end_read<R: Wait, T: Shelf<Tunnel>, D: Door<Place = Place>>(
    rt: &R,
    tunnels: &mut T,
    id: &Uuid,
    door: &mut D,
    reader: ReaderPass,
    left: Left,
)
    requires { IfSome (T.told tunnels.old) (λ m. (t : Tunnel) × (m id.now ≡ Some (Some t))) }
    ensures { (back : Bool) × HasGiven D.id_of (IsOfTunnel id.now (T.told tunnels.old)) back (D.view door.old) (D.view door.new) × Told (T.told tunnels.old) (T.told tunnels.new) (HasEnded id.now reader left back) }
{
    match tunnels.lend(rt, id) {
        Some(tunnel) => end_lent(rt, tunnels, id, door, tunnel, reader, left),
        None => {}
    }
}

// How a read is answered, and what it leaves of its tunnel.
fn answer_of(
    alloc: Global,
    end: Result<TunnelEnd, TunnelRefusal>,
    text: Bytes,
) -> (Result<Bytes, Refusal>, Left)
    ensures answered { result.0 ≡ answer_with text end }
    ensures kept { result.1.kept ≡ kept_with text end }
    ensures ended { result.1.ended ≡ is_end end }
{
    match end {
        Ok(end) => {
            let kept = Bytes::of(Vec::new(alloc));
            let ended = is_last(end);
            (Ok(text), Left { kept, ended })
        }
        Err(refusal) => {
            let left = Left {
                kept: text,
                ended: false,
            };
            (Err(refused_read(refusal)), left)
        }
    }
}

// Reads behind the text that is kept. Where there is some, it answers the request, so nothing is waited for.
fn read_behind<R: Wait, B: Bell>(
    rt: &R,
    reader: &mut ReaderPass,
    text: &mut Vec<u8>,
    bell: &B,
) -> Result<TunnelEnd, TunnelRefusal>
    ensures stays { Stays reader.old reader.new }
    ensures read { (given : List ℕ) × (text.new.items ≡ text.old.items ++ (given ++ mark_of result)) × HasRead reader.old.viewer reader.old.view reader.new.view given result }
{
    let waits = if text.is_empty() {
        Waits::Once
    } else {
        Waits::Never
    };
    read_within(rt, reader, bell, text, waits)
}

// Reads with a reader's pass that was taken out.
fn read_lent<R: Wait, B: Bell>(
    rt: &R,
    alloc: Global,
    reader: &mut ReaderPass,
    kept: Bytes,
    bell: &B,
) -> (Result<Bytes, Refusal>, Left)
    ensures stays { Stays reader.old reader.new }
    ensures read { (text : List ℕ) × (end : Result TunnelEnd TunnelRefusal) × HasRead reader.old.viewer reader.old.view reader.new.view text end × IsAnswered kept text end result.0 result.1 }
{
    let mut text = kept.into_inner();
    let end = read_behind(rt, reader, &mut text, bell);
    answer_of(alloc, end, Bytes::of(text))
}

/// Reads for the viewer of a tunnel, and rings for a read of the same tunnel that waits until this one is done.
pub(crate) fn read<R: Wait, T: Shelf<Tunnel>, D: Door<Place = Place>, B: Bell>(
    rt: &R,
    alloc: Global,
    tunnels: &mut T,
    id: &Uuid,
    door: &mut D,
    bell: &B,
) -> Result<Bytes, Refusal>
    requires { AreHome (T.told tunnels.old) }
    ensures home { AreHome (T.told tunnels.new) }
    ensures kind { IfErr result IsTunnelRefusal }
    ensures read { (back : Bool) × HasGiven D.id_of (IsOfTunnel id.now (T.told tunnels.old)) back (D.view door.old) (D.view door.new) × Told (T.told tunnels.old) (T.told tunnels.new) (ReadOf id.now back result) }
{
    match begin_read(rt, alloc, tunnels, id, bell) {
        Some(lent) => {
            let Lent { mut reader, kept } = lent;
            let (result, left) = read_lent(rt, alloc, &mut reader, kept, bell);
            end_read(rt, tunnels, id, door, reader, left);
            bell.ring();
            result
        }
        None => Err(Refusal::NotFound),
    }
}
