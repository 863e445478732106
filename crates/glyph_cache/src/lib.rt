//! Glyph buffers by key: which layer holds the glyph of a key, and which key gives up its buffer.
//!
//! A buffer is a layer from -1 to -1,024 with the glyph of one key, and no two buffers have the same
//! key (`IsCache` of `specs/Cache.antt`). A call for a key's buffer finds it, makes the next one, or,
//! where all are made, takes that of the key used longest ago (`Gets` and `IsUsed` there). No key but
//! that one loses its buffer. This is this project's own rule.
#![tactic(auto)]

mod cache;
mod hash_key;
mod slot;

pub use cache::Cache;
pub use slot::{Slot, SlotKind};
