ghost use Rattle.std.specs.Prelude.{◌≡◌, ℕ, List};

use crate::stop::Stop;
use gate_outside::{Failed, Source};
use std::alloc::AllocError;
use std::marker::Model;

/// The bytes that were read and aren't used yet. Contracts see their list.
#[derive(Drop)]
pub(crate) struct Unread {
    bytes: Vec<u8>,
    at: usize,
}

impl Model for Unread {
    ghost use Rattle.std.specs.Prelude.{ℕ, List, ◌≤◌, length, drop};

    ghost Value = { List ℕ };

    ghost view = { λ u. drop u.at u.bytes.items };

    ghost invariant = { λ u. u.at ≤ length u.bytes.items };
}

impl Unread {
    ghost use Rattle.std.specs.Prelude.{◌≡◌, ◌<◌, ◌≤◌, ◌++◌, [], List, ℕ, Bool, true, false, length, drop, Err, IfOk, IfErr, OnErr, OnOk};
    ghost use Rattle.gate_outside.specs.Edge.{AtEnd, CountsFault};
    ghost use Rattle.guac_handshake.specs.Moved.{Moved, IsReadStop};

    /// None, in the room of the vector.
    pub(crate) fn new(mut bytes: Vec<u8>) -> Unread
        ensures { result ≡ [] }
    {
        bytes.clear();
        Unread { bytes, at: 0 }
    }

    /// The bytes, lent.
    pub(crate) fn as_slice(&self) -> &[u8]
        ensures { result.now ≡ self.now }
    {
        &self.bytes[self.at..]
    }

    /// The first bytes, so many, are used.
    pub(crate) fn pass(&mut self, count: usize)
        requires { count ≤ length self.old }
        ensures { self.new ≡ drop count self.old }
    {
        self.at += count;
    }

    // Lets go of the bytes that are used.
    fn cut(&mut self)
        ensures { self.new ≡ self.old }
    {
        self.bytes.drain(..self.at);
        self.at = 0;
    }

    /// The vector of the bytes.
    pub(crate) fn into_vec(self) -> Vec<u8>
        ensures { result.items ≡ self }
    {
        let Unread { mut bytes, at } = self;
        bytes.drain(..at);
        bytes
    }

    /// Reads once, and answers whether bytes came; where none came the source is at its end. `piece` is where
    /// they are put first, and isn't empty.
    pub(crate) fn read<S: Source>(&mut self, source: &mut S, piece: &mut [u8]) -> Result<bool, Stop>
        requires { 0 < length piece.old }
        ensures moved { Moved (S.left source.old) (S.left source.new) self.old self.new }
        ensures more { IfOk result (λ more. more ≡ true → length self.old < length self.new) }
        ensures end { IfOk result (λ more. more ≡ false → (self.new ≡ self.old) × AtEnd (S.left source.new)) }
        ensures stopped { OnErr result (self.new ≡ self.old) }
        ensures kind { IfErr result IsReadStop }
        ensures reads { CountsFault (result ≡ Err Stop.ReadFault) (S.faults source.old) (S.faults source.new) }
    {
        self.cut();
        self.bytes.reserve(piece.len())?;
        match source.read(piece) {
            Ok(count) => {
                self.bytes.extend_from_slice(&piece[..count]).unwrap();
                Ok(count > 0)
            }
            Err(Failed) => Err(Stop::ReadFault),
        }
    }
}
