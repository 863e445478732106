ghost use Rattle.std.specs.Prelude.{◌≡◌};
ghost use Rattle.gate_model.specs.picture.Buffers.{is_same_key};
ghost use Rattle.std.proofs.Common.{rules};
ghost use Rattle.std.specs.Hash as fed;
ghost use Rattle.std.specs.Cmp.Rules.{comparing, hashing};
ghost use Rattle.glyph_cache.specs.Packed.{packed};

use gate_model::Key;
use std::hash::{Hash, Hasher};

/// A key that can be looked up by its hash, which is made of one number.
#[derive(Clone, Copy)]
pub struct HashKey {
    pub(crate) key: Key,
}

impl PartialEq for HashKey {
    ghost eq = { λ a b. is_same_key a.key b.key };

    ghost laws = { Prim.search (comparing, rules) };

    fn eq(&self, other: &HashKey) -> bool {
        self.key == other.key
    }
}

impl Eq for HashKey {
    ghost laws = { Prim.search (comparing, rules) };
}

impl Hash for HashKey {
    ghost hash_input = { λ a. fed.u64 (packed a.key) };

    ghost respects_eq = { Prim.search (hashing, rules) };

    fn hash<H: Hasher>(&self, state: &mut H) {
        packed(self.key).hash(state);
    }
}

// The parts of a key side by side in one number.
fn packed(key: Key) -> u64
    ensures { result ≡ packed key }
{
    let colours = key.ink as u64 * 256 + key.paper as u64;
    (key.face as u64 * 2 + u64::from(key.under)) * 65_536 + colours
}
