//! A request for a tunnel.

ghost use Rattle.std.specs.Prelude.{◌≡◌, ◌⊎◌, IfErr, OnErr, OnOk, Err};
ghost use Rattle.gate_outside.specs.Helpers.{CountsFaults};
ghost use Rattle.guac_handshake.specs.Doors.{Grants};
ghost use Rattle.guac_handshake.specs.Views.{Gives};
ghost use Rattle.id_table.specs.Maps.{Told};
ghost use Rattle.http_tunnel.specs.Connects.{IsAdded, IsId, OpensTunnel, refused_by_door, refused_form};
ghost use Rattle.http_tunnel.specs.Tunnels.{AreHome};
ghost use Rattle.http_front.specs.declared.refusal.Refusal.TheVariants.{Busy, Conflict, Dial, NoMemory};

use crate::giving::give_back;
use crate::tunnel::Tunnel;
use gate_model::Bytes;
use gate_outside::Dice;
use guac_handshake::{Door, FormRefusal, Refused, Welcome, open_form};
use http_front::Refusal;
use id_table::{AddRefusal, Shelf};
use shared_desk::Place;
use std::alloc::Global;
use std::sync::Wait;
use std::thread::Threads;
use uuid::Uuid;

/// How many bytes the text of an ID has.
const ID_BYTES: usize = 36;

fn refused_form(refusal: FormRefusal) -> Refusal
    ensures { result ≡ refused_form refusal }
{
    match refusal {
        FormRefusal::Form => Refusal::Form,
        FormRefusal::NoMemory => Refusal::NoMemory,
        FormRefusal::Door(refused) => refused_by_door(refused),
    }
}

fn refused_by_door(refused: Refused) -> Refusal
    ensures { result ≡ refused_by_door refused }
{
    match refused {
        Refused::Absent => Refusal::NotFound,
        Refused::Conflict => Refusal::Conflict,
        Refused::Dial => Refusal::Dial,
        Refused::Busy => Refusal::Busy,
        Refused::Closed | Refused::Worn => Refusal::Closed,
        Refused::Forbidden => Refusal::Forbidden,
        Refused::TooMany => Refusal::TooMany,
        Refused::NoMemory => Refusal::NoMemory,
    }
}

// Adds the tunnel of a viewer that was let in, or gives its place back.
fn add_tunnel<R: Wait, T: Shelf<Tunnel>, D: Door<Place = Place>, X: Dice>(
    rt: &R,
    tunnels: &mut T,
    door: &mut D,
    dice: &mut X,
    welcome: Welcome<Place>,
) -> Result<Uuid, Refusal>
    ensures added { Told (T.told tunnels.old) (T.told tunnels.new) (IsAdded IsId (X.helper dice.old).draws welcome result) }
    ensures kind { IfErr result (λ refused. (refused ≡ Conflict) ⊎ (refused ≡ NoMemory)) }
    ensures same { OnOk result (door.new ≡ door.old) }
    ensures gives { OnErr result (Gives (D.id_of welcome.id) (D.view door.old) (D.view door.new)) }
{
    match tunnels.add(rt, dice, Tunnel::of(welcome)) {
        Ok(id) => Ok(id),
        Err(AddRefusal::Conflict(unplaced, _)) => {
            give_back(rt, door, unplaced);
            Err(Refusal::Conflict)
        }
        Err(AddRefusal::NoMemory(tunnel)) => {
            give_back(rt, door, tunnel);
            Err(Refusal::NoMemory)
        }
    }
}

/// Opens a tunnel, and answers its ID.
pub(crate) fn connect<R, T, D, X>(
    rt: &R,
    alloc: Global,
    tunnels: &mut T,
    body: &[u8],
    door: &mut D,
    dice: &mut X,
) -> Result<Bytes, Refusal>
where
    R: Threads + Wait + Copy + Send + 'static,
    T: Shelf<Tunnel>,
    D: Door<Place = Place>,
    X: Dice,
    requires { AreHome (T.told tunnels.old) }
    ensures home { AreHome (T.told tunnels.new) }
    ensures connected { OpensTunnel D.id_of (Grants (D.begun door.new) (D.joined door.new)) (D.view door.old) (D.view door.new) (X.helper dice.old).draws (T.told tunnels.old) (T.told tunnels.new) body.now result }
    ensures faults { CountsFaults (result ≡ Err Dial) (result ≡ Err Busy) (D.view door.old).helper (D.view door.new).helper }
{
    let Ok(mut answer) = Vec::with_capacity(alloc, ID_BYTES) else {
        return Err(Refusal::NoMemory);
    };
    match open_form(rt, alloc, body, door) {
        Ok(welcome) => match add_tunnel(rt, tunnels, door, dice, welcome) {
            Ok(id) => {
                let mut buffer = Uuid::encode_buffer();
                let text = id.hyphenated().encode_lower(&mut buffer);
                answer.extend_from_slice(text.as_bytes()).unwrap();
                Ok(Bytes::of(answer))
            }
            Err(refusal) => Err(refusal),
        },
        Err(refusal) => Err(refused_form(refusal)),
    }
}
