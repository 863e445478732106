ghost use Rattle.std.specs.Prelude.{◌≡◌, ◌≤◌, ◌++◌, [], length, take, drop, min, OnOk, OnErr};

use gate_model::NoMemory;
use std::alloc::Global;
use std::marker::Model;

/// The bytes that wait for the Telnet host, which contracts see as a list: what came first goes first.
#[derive(Drop)]
pub struct Outgoing {
    bytes: Vec<u8>,
    // The bytes before this place are gone.
    gone: usize,
}

impl Model for Outgoing {
    ghost use Rattle.std.specs.Prelude.{ℕ, List, ◌≤◌, length, drop};

    ghost Value = { List ℕ };

    ghost view = { λ o. drop o.gone o.bytes.items };

    ghost invariant = { λ o. o.gone ≤ length o.bytes.items };
}

impl Outgoing {
    /// Nothing waits.
    pub fn new(alloc: Global) -> Outgoing
        ensures { result ≡ [] }
    {
        Outgoing {
            bytes: Vec::new(alloc),
            gone: 0,
        }
    }

    /// How many bytes wait.
    pub fn len(&self) -> usize
        ensures { result ≡ length self.now }
    {
        self.bytes.len() - self.gone
    }

    /// The bytes wait behind those that are there.
    pub fn append(&mut self, bytes: &[u8]) -> Result<(), NoMemory>
        ensures appended { OnOk result (self.new ≡ self.old ++ bytes.now) }
        ensures unchanged { OnErr result (self.new ≡ self.old) }
    {
        self.bytes.extend_from_slice(bytes)?;
        Ok(())
    }

    /// Only the first so many wait.
    pub fn truncate(&mut self, count: usize)
        requires { count ≤ length self.old }
        ensures { self.new ≡ take count self.old }
    {
        self.bytes.truncate(self.gone + count);
    }

    /// Moves the first bytes, as many as there is room for, to the front of the buffer, and answers
    /// their number.
    pub fn take(&mut self, into: &mut [u8]) -> usize
        ensures count { result ≡ min (length into.old) (length self.old) }
        ensures handed { into.new ≡ take result self.old ++ drop result into.old }
        ensures rest { self.new ≡ drop result self.old }
    {
        let count = into.len().min(self.len());
        into[..count].copy_from_slice(&self.bytes[self.gone..self.gone + count]);
        self.gone += count;
        self.close_up();
        count
    }

    // Moves what waits to the front where at least half is gone, so that each byte moves at most once
    // for each byte that goes.
    fn close_up(&mut self)
        ensures { self.new ≡ self.old }
    {
        let waiting = self.len();
        if waiting <= self.gone {
            self.bytes.copy_within(self.gone.., 0);
            self.bytes.truncate(waiting);
            self.gone = 0;
        }
    }
}
