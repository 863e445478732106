ghost use Rattle.std.specs.Prelude.{◌≡◌, ◌↔◌, ◌<◌, ℕ, negsuc, [], ◌∷◌, ◌++◌, length, Some, true, false, slice_get, IfOk, IfSome, IfNone, IsNone, IsOk, OnOk, OnErr};
ghost use Rattle.std.specs.NonZero.{non_zero_usize_get};
ghost use Rattle.gate_model.specs.picture.Buffers.{buffer_key, is_held};
ghost use Rattle.gate_model.specs.terminal.Screens.{IsColoured};
ghost use Rattle.glyph_cache.specs.Cache.{Gets, IsCache, IsTaken, IsUsed, without};
ghost use Rattle.glyph_cache.specs.declared.slot.SlotKind.TheVariants.{Made, Reused};

use crate::hash_key::HashKey;
use crate::{Slot, SlotKind};
use gate_model::{Key, NoMemory};
use lru::LruCache;
use std::alloc::Global;
use std::marker::Model;
use std::num::NonZeroUsize;

/// The most buffers that are made (this project's own rule).
const MOST: usize = 1_024;

/// The buffers of a session by key. Contracts see the key of each, and the order of their use.
#[derive(Drop)]
pub struct Cache {
    // The number of each key's buffer, by the key.
    slots: LruCache<HashKey, u16>,
    // The key of each buffer, by its number.
    by_number: Vec<Key>,
}

impl Model for Cache {
    ghost use Rattle.glyph_cache.specs.Cache.{CacheState};
    ghost use Rattle.glyph_cache.specs.Tied.{IsTied, keys_in};

    ghost Value = { CacheState };

    ghost view = { λ c. record { keys = c.by_number.items; order = keys_in c.slots.entries } };

    ghost invariant = { λ c. IsTied c.slots c.by_number.items };
}

impl Cache {
    /// A cache without a buffer.
    pub fn new(alloc: Global) -> Result<Cache, NoMemory>
        ensures empty { IfOk result (λ c. c ≡ record { keys = []; order = [] }) }
    {
        Ok(Cache {
            slots: LruCache::new(alloc, most())?,
            by_number: Vec::new(alloc),
        })
    }

    /// The layer of the key's buffer, if it has one. The order of use stays.
    pub fn find(&self, key: Key) -> Option<i32>
        ensures none { IsNone result ↔ (is_held self.now.keys key ≡ false) }
        ensures layer { IfSome result (λ layer. (n : ℕ) × (layer ≡ negsuc n) × (slice_get self.now.keys n ≡ Some key)) }
        ensures valid { IsCache self.now }
    {
        let number = self.slots.peek(&HashKey { key })?;
        Some(layer_of(*number))
    }

    /// The key of the layer, if the layer is a buffer.
    pub fn key_at(&self, layer: i32) -> Option<Key>
        ensures key { result ≡ buffer_key self.now.keys layer }
        ensures valid { IsCache self.now }
    {
        let keys = &self.by_number;
        if 0 <= layer {
            return None;
        }
        keys.get((-1 - layer) as usize).copied()
    }

    /// The buffer of the key, which is the one used last from then on: the one it has, the next one that is
    /// made, or, where all 1,024 are made, that of the key used longest ago. Refused, it changes nothing; for
    /// a key that has a buffer it takes no memory.
    pub fn buffer(&mut self, key: Key) -> Result<Slot, NoMemory>
        requires coloured { IsColoured key }
        ensures gets { IfOk result (λ slot. (n : ℕ) × (slot.layer ≡ negsuc n) × Gets self.old.keys key slot.kind n self.new.keys) }
        ensures used { IfOk result (λ slot. (n : ℕ) → slot.layer ≡ negsuc n → IsUsed self.old key slot.kind n self.new.order) }
        ensures unchanged { OnErr result (self.new ≡ self.old) }
        ensures sure { is_held self.old.keys key ≡ true → IsOk result }
        ensures valid { IsCache self.new }
    {
        match self.use_held(key) {
            Some(number) => Ok(slot_of(number, SlotKind::Held)),
            None if self.by_number.len() < MOST => self.make(key),
            None => self.reuse(key),
        }
    }

    // The number of the key's buffer, if it has one: the key is the one used last from then on.
    fn use_held(&mut self, key: Key) -> Option<u16>
        ensures held { IfSome result (λ n. slice_get self.old.keys n ≡ Some key) }
        ensures absent { IfNone result (is_held self.old.keys key ≡ false) }
        ensures keys { self.new.keys ≡ self.old.keys }
        ensures first { IfSome result (λ _. self.new.order ≡ key ∷ without key self.old.order) }
        ensures unused { IfNone result (self.new.order ≡ self.old.order) }
        ensures valid { IsCache self.new }
    {
        self.slots.get(&HashKey { key }).copied()
    }

    // The next buffer, for a key that has none.
    fn make(&mut self, key: Key) -> Result<Slot, NoMemory>
        requires coloured { IsColoured key }
        requires absent { is_held self.old.keys key ≡ false }
        requires room { length self.old.keys < 1024 }
        ensures slot { IfOk result (λ slot. (slot.layer ≡ negsuc (length self.old.keys)) × (slot.kind ≡ Made)) }
        ensures keys { OnOk result (self.new.keys ≡ self.old.keys ++ key ∷ []) }
        ensures order { OnOk result (self.new.order ≡ key ∷ self.old.order) }
        ensures unchanged { OnErr result (self.new ≡ self.old) }
        ensures valid { OnOk result (IsCache self.new) }
    {
        let number = self.by_number.len() as u16;
        self.by_number.push(key)?;
        match self.slots.push(HashKey { key }, number) {
            Ok(_) => Ok(slot_of(number, SlotKind::Made)),
            Err(_) => {
                self.by_number.pop();
                Err(NoMemory)
            }
        }
    }

    // The buffer of the key used longest ago, for a key that has none.
    fn reuse(&mut self, key: Key) -> Result<Slot, NoMemory>
        requires coloured { IsColoured key }
        requires absent { is_held self.old.keys key ≡ false }
        requires full { length self.old.keys ≡ 1024 }
        ensures slot { IfOk result (λ slot. (n : ℕ) × (slot.layer ≡ negsuc n) × (slot.kind ≡ Reused) × (n < 1024) × IsTaken self.old key n self.new) }
        ensures unchanged { OnErr result (self.new ≡ self.old) }
        ensures valid { OnOk result (IsCache self.new) }
    {
        let number = match self.slots.peek_lru() {
            Some((_, number)) => *number,
            None => unreachable!(),
        };
        self.slots.push(HashKey { key }, number)?;
        self.by_number[number as usize] = key;
        Ok(slot_of(number, SlotKind::Reused))
    }

    /// The same cache once more.
    pub fn copy(&self, alloc: Global) -> Result<Cache, NoMemory>
        ensures same { IfOk result (λ c. c ≡ self.now) }
    {
        let mut slots = LruCache::new(alloc, most())?;
        for (key, number) in self.slots.iter().rev() {
            slots.push(*key, *number)?;
        }
        Ok(Cache {
            slots,
            by_number: Vec::from_slice(alloc, &self.by_number)?,
        })
    }
}

fn most() -> NonZeroUsize
    ensures { non_zero_usize_get result ≡ 1024 }
{
    NonZeroUsize::new(MOST).unwrap()
}

// The buffer of this number.
fn slot_of(number: u16, kind: SlotKind) -> Slot
    ensures { result ≡ record { layer = negsuc number; kind = kind } }
{
    Slot {
        layer: layer_of(number),
        kind,
    }
}

// The layer of the buffer of this number.
fn layer_of(number: u16) -> i32
    ensures { result ≡ negsuc number }
{
    -1 - number as i32
}
