ghost use Rattle.std.specs.Prelude.{◌≡◌, ◌++◌, [], ℕ, List, IfOk, OnOk, OnErr, ◌≤◌, length, take};
ghost use Rattle.gate_model.specs.telnet.TelnetTokens.{tokens};
ghost use Rattle.telnet_wire.specs.Past.{HaveRead};

use crate::part::Part;
use crate::reader::Reader;
use gate_model::{NoMemory, Tokens};
use std::alloc::Global;

/// Reads a stream of bytes from a Telnet peer (RFC 854 and 855). It has a fixed size, and to copy it takes no memory.
#[derive(Clone, Copy)]
pub struct Wire {
    reader: Reader,
    ghost past: { ∥ ((bytes : List ℕ) × HaveRead reader bytes) ∥₁ },
}

impl Wire {
    ghost use Rattle.telnet_wire.specs.Parts.{given};
    ghost use Rattle.telnet_wire.specs.Wire.{HasRead};

    /// A wire that has read nothing.
    pub fn new() -> Wire
        ensures nothing_read { HasRead result [] }
    {
        Wire {
            reader: Reader::new(),
        }
    }

    /// Reads the next bytes of the stream, and gives the tokens that they complete, in order. Refused for want of
    /// memory, it has read none of them.
    pub fn feed(&mut self, alloc: Global, piece: &[u8]) -> Result<Tokens, NoMemory>
        ensures tokens { IfOk result (λ given. (bytes : List ℕ) → HasRead self.old bytes → tokens (bytes ++ piece.now) ≡ tokens bytes ++ given) }
        ensures state { OnOk result ((bytes : List ℕ) → HasRead self.old bytes → HasRead self.new (bytes ++ piece.now)) }
        ensures unchanged { OnErr result (self.new ≡ self.old) }
    {
        let mut reader = self.reader;
        let tokens = reader.read_piece(alloc, piece)?;
        self.reader = reader;
        Ok(tokens)
    }

    /// Reads the front of the piece, at least one byte, and gives the tokens that it completes and the number of
    /// bytes that it has read. Data bytes between two commands are lent from the piece. Refused for want of memory,
    /// it has read nothing.
    pub fn next<'a>(
        &mut self,
        alloc: Global,
        piece: &'a [u8],
    ) -> Result<(Part<'a>, usize), NoMemory>
        requires { 1 ≤ length piece.now }
        ensures few { IfOk result (λ r. 1 ≤ r.1 × r.1 ≤ length piece.now) }
        ensures tokens { IfOk result (λ r. (bytes : List ℕ) → HasRead self.old bytes → tokens (bytes ++ take r.1 piece.now) ≡ tokens bytes ++ given r.0) }
        ensures state { IfOk result (λ r. (bytes : List ℕ) → HasRead self.old bytes → HasRead self.new (bytes ++ take r.1 piece.now)) }
        ensures unchanged { OnErr result (self.new ≡ self.old) }
    {
        self.reader.next(alloc, piece)
    }
}
