//! The beginning and the end of sharing.

ghost use Rattle.std.specs.Prelude.{◌≡◌, ◌≤◌, ◌==◌, List, length, is_ok, IfOk, IfErr};
ghost use Rattle.gate_model.specs.session.History.{History};
ghost use Rattle.gate_model.specs.Sequences.{IsLater};
ghost use Rattle.gate_model.specs.declared.entry.Entry.{Entry};
ghost use Rattle.desk_core.specs.Desk.{Stands};
ghost use Rattle.shared_desk.specs.Hosts.{HasBegun, HasOwner, IsOpening};

use crate::held::Held;
use crate::host::HostPass;
use crate::member::Member;
use crate::owners::Owners;
use crate::place::Place;
use desk_core::laws::desks_are_whole;
use desk_core::{Desk, NoMemory};
use gate_model::laws::entries_are_few;
use gate_model::{Entry, Role};
use std::alloc::Global;
use std::sync::{Arc, Wait};
use turn_lock::{Lists, TurnLock};

/// A host whose passes are out, so that its session doesn't end: how many there are.
#[derive(Drop)]
pub struct StillOut {
    pub host: HostPass,
    pub out: u32,
}

/// Shares a desk that stands for the list that `L` names: the session's Start alone, or its Start and the Join
/// of viewer 1, whose place is then given out. For want of memory the desk is dropped (this project's own
/// rule).
pub fn share<L: Lists<Entry>>(
    alloc: Global,
    desk: Desk,
) -> Result<(HostPass, Option<Place>), NoMemory>
    requires stands { Stands desk L.list }
    requires opening { IsOpening L.list }
    ensures { IfOk result (λ made. HasBegun L.list made.0 made.1) }
{
    let owner = role_of_owner(&desk);
    // So the number of entries doesn't overflow.
    entries_are_few();
    // So the history that the host has seen is sound.
    desks_are_whole();
    let (lock, pass) = TurnLock::new::<L>(alloc, Held { desk })?;
    let lock = Arc::new(alloc, lock)?;
    let spare = Owners::of(&lock)?;
    let mut host = HostPass {
        member: Member { lock, pass },
        spare: Some(spare),
        out: 0,
    };
    let place = match owner {
        Some(role) => {
            let owners = Owners::of(&host.member.lock)?;
            Some(host.place(1, role, owners))
        }
        None => None,
    };
    Ok((host, place))
}

// The role of viewer 1, where it has joined.
fn role_of_owner(desk: &Desk) -> Option<Role>
    requires { (h : History) × Stands desk.now h × IsOpening h }
    ensures { (h : History) → Stands desk.now h → IsOpening h → HasOwner h result }
{
    if desk.entries() == 2 {
        Some(desk.role(1))
    } else {
        None
    }
}

/// The desk of a session that ends, after a last turn: no pass is out, so nobody waits for a further turn. Its
/// history begins with what the host has seen.
pub fn end_session<R: Wait>(rt: &R, host: HostPass) -> Result<Desk, StillOut>
    ensures exact { is_ok result ≡ (host.out == 0) }
    ensures desk { IfOk result (λ desk. (h : List Entry) × Stands desk h × IsLater host.view.seen h × (host.view.known ≤ length h)) }
    ensures still_out { IfErr result (λ still. (still.host ≡ host) × (still.out ≡ host.out)) }
{
    let out = host.out;
    if out > 0 {
        return Err(StillOut { host, out });
    }
    Ok(host.member.finish(rt))
}
