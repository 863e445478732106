//! The bytes that are pasted.

ghost use Rattle.std.specs.Prelude.{◌≡◌, ℕ, List};

use base64::engine::general_purpose::STANDARD;
use gate_model::NoMemory;
use std::alloc::Global;
use std::marker::Model;

/// The most bytes that are pasted at once (this project's own).
const MOST_PASTED: usize = 262_144;

/// The bytes that are pasted, at most 262,144, in room that was taken before. Contracts see their list.
#[derive(Drop)]
pub(crate) struct Pasted {
    bytes: Vec<u8>,
    end: usize,
}

impl Model for Pasted {
    ghost use Rattle.std.specs.Prelude.{ℕ, List, ◌≡◌, ◌≤◌, vec_len, take};

    ghost Value = { List ℕ };

    ghost view = { λ p. take p.end p.bytes.items };

    ghost invariant = { λ p. (p.end ≤ vec_len p.bytes) × (vec_len p.bytes ≡ 262144) };
}

impl Pasted {
    ghost use Rattle.std.specs.Prelude.{◌≡◌, [], Some, None, length, IfOk, if◌then◌else◌};
    ghost use Rattle.base64.specs.Engines.{standard};
    ghost use Rattle.base64.specs.GeneralPurpose.{decoded_of};
    ghost use Rattle.clip_stream.specs.Clips.{extended};

    /// None, with all the room.
    pub(crate) fn new(alloc: Global) -> Result<Pasted, NoMemory>
        ensures { IfOk result (λ pasted. pasted ≡ []) }
    {
        let bytes = vec![in alloc; 0; MOST_PASTED]?;
        Ok(Pasted { bytes, end: 0 })
    }

    /// The bytes, lent.
    pub(crate) fn as_slice(&self) -> &[u8]
        ensures { result.now ≡ self.now }
    {
        &self.bytes[..self.end]
    }

    /// How many there are.
    pub(crate) fn len(&self) -> usize
        ensures { result ≡ length self.now }
    {
        self.end
    }

    /// Lets go of all.
    pub(crate) fn clear(&mut self)
        ensures { self.new ≡ [] }
    {
        self.end = 0;
    }

    /// Puts the bytes of a text in Base64 (RFC 4648, section 4) behind those that are there, and answers true; or
    /// answers false where it doesn't decode or there isn't room for all of them.
    pub(crate) fn extend(&mut self, encoded: &str) -> bool
        ensures { extended self.old (decoded_of standard encoded.now) ≡ (if result then Some self.new else None) }
    {
        match STANDARD.decode_slice(encoded.as_bytes(), &mut self.bytes[self.end..]) {
            Ok(count) => {
                self.end += count;
                true
            }
            Err(_) => false,
        }
    }
}
