//! When each tunnel was asked for last.

ghost use Rattle.std.specs.Prelude.{None};

use gate_model::NoMemory;
use gate_outside::Dice;
use http_tunnel::Tunnel;
use id_table::{AddRefusal, LockedShelf, Shelf};
use std::alloc::Global;
use std::collections::BTreeMap;
use std::sync::{Arc, Mutex, Wait};
use uuid::Uuid;

/// At how many looks in a row each tunnel wasn't asked for.
#[derive(Drop)]
pub(crate) struct Seen {
    looks: Arc<Mutex<BTreeMap<Uuid, u64, Global>>, Global>,
}

impl Seen {
    /// No tunnel yet.
    pub(crate) fn new(alloc: Global) -> Result<Seen, NoMemory> {
        Ok(Seen {
            looks: Arc::new(alloc, Mutex::new(BTreeMap::new(alloc)))?,
        })
    }

    /// The same once more.
    pub(crate) fn another(&self) -> Result<Seen, NoMemory> {
        Ok(Seen {
            looks: Arc::try_clone(&self.looks)?,
        })
    }

    // A tunnel begins. Where memory is wanting it isn't watched.
    fn begin<R: Wait>(&self, rt: &R, id: Uuid) {
        let _ = self.looks.lock(rt).insert(id, 0);
    }

    // A tunnel is asked for, if it is there.
    fn ask<R: Wait>(&self, rt: &R, id: &Uuid) {
        if let Some(looks) = self.looks.lock(rt).get_mut(id) {
            *looks = 0;
        }
    }

    // A tunnel is gone.
    fn end<R: Wait>(&self, rt: &R, id: &Uuid) {
        let _ = self.looks.lock(rt).remove(id);
    }

    /// Counts a look, and gives those that weren't asked for at more than `most` looks in a row. Where memory is
    /// wanting some come at a later look.
    pub(crate) fn look<R: Wait>(&self, rt: &R, alloc: Global, most: u32) -> Vec<Uuid> {
        let mut late = Vec::new(alloc);
        let mut looks = self.looks.lock(rt);
        for (id, count) in looks.iter_mut() {
            *count = count.saturating_add(1);
            if *count > u64::from(most) && late.push(*id).is_err() {
                break;
            }
        }
        drop(looks);
        late
    }
}

/// A shelf of tunnels that threads share, and where it is noted which are asked for, if that is wanted. It doesn't tell
/// what is there.
#[derive(Drop)]
pub(crate) struct WatchedShelf {
    pub(crate) tunnels: LockedShelf<Tunnel>,
    pub(crate) seen: Option<Seen>,
}

impl WatchedShelf {
    /// The same shelf once more, for another thread.
    pub(crate) fn another(&self) -> Result<WatchedShelf, NoMemory> {
        let seen = match &self.seen {
            Some(seen) => Some(seen.another()?),
            None => None,
        };
        Ok(WatchedShelf {
            tunnels: self.tunnels.another(),
            seen,
        })
    }
}

impl Shelf<Tunnel> for WatchedShelf {
    ghost told = { λ _. None };

    fn add<R: Wait, X: Dice>(
        &mut self,
        rt: &R,
        dice: &mut X,
        value: Tunnel,
    ) -> Result<Uuid, AddRefusal<Tunnel>> {
        let added = self.tunnels.add(rt, dice, value);
        if let (Ok(id), Some(seen)) = (&added, &self.seen) {
            seen.begin(rt, *id);
        }
        added
    }

    fn has<R: Wait>(&mut self, rt: &R, id: &Uuid) -> bool {
        self.tunnels.has(rt, id)
    }

    fn lend<R: Wait>(&mut self, rt: &R, id: &Uuid) -> Option<Tunnel> {
        if let Some(seen) = &self.seen {
            seen.ask(rt, id);
        }
        self.tunnels.lend(rt, id)
    }

    fn back<R: Wait>(&mut self, rt: &R, id: &Uuid, value: Tunnel) {
        self.tunnels.back(rt, id, value);
    }

    fn remove<R: Wait>(&mut self, rt: &R, id: &Uuid) -> Option<Tunnel> {
        if let Some(seen) = &self.seen {
            seen.end(rt, id);
        }
        self.tunnels.remove(rt, id)
    }
}
