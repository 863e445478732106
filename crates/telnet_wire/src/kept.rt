ghost use Rattle.std.specs.Prelude.{◌≡◌, ◌++◌, ◌∷◌, [], ℕ, List, IfOk};
ghost use Rattle.std.specs.List.{cons_option};
ghost use Rattle.gate_model.specs.telnet.TelnetTokens.{sub_token};

use gate_model::limits::MOST_IN_SUB;
use gate_model::{Bytes, NoMemory, Token};
use std::alloc::Global;

/// The bytes of a subnegotiation so far, undoubled, as long as they are few enough to have a meaning.
#[derive(Clone, Copy)]
pub struct Kept {
    bytes: [u8; MOST_IN_SUB],
    // The number of bytes, and 1,025 where there are more.
    count: usize,
}

impl Kept {
    ghost use Rattle.telnet_wire.specs.Kept.{Holds};

    /// No byte is kept.
    pub fn new() -> Kept
        ensures { Holds result [] }
    {
        Kept {
            bytes: [0; MOST_IN_SUB],
            count: 0,
        }
    }

    /// A new subnegotiation begins.
    pub fn clear(&mut self)
        ensures { Holds self.new [] }
    {
        self.count = 0;
    }

    /// Keeps one more byte.
    pub fn push(&mut self, byte: u8)
        ensures { (list : List ℕ) → Holds self.old list → Holds self.new (list ++ byte ∷ []) }
    {
        if self.count < MOST_IN_SUB {
            self.bytes[self.count] = byte;
            self.count += 1;
        } else {
            self.count = MOST_IN_SUB + 1;
        }
    }

    /// The token of the subnegotiation; none where it has too many bytes.
    pub fn token(&self, alloc: Global) -> Result<Option<Token>, NoMemory>
        ensures { IfOk result (λ token. (list : List ℕ) → Holds self.now list → cons_option token [] ≡ sub_token list) }
    {
        if self.count > MOST_IN_SUB {
            return Ok(None);
        }
        let bytes = self.bytes[..self.count].to_vec(alloc)?;
        Ok(Some(Token::Sub(Bytes::of(bytes))))
    }
}
