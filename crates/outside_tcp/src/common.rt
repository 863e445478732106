//! What a net and its helpers have in common.

use crate::rules::Rules;
use crate::spares::Spares;
use crate::{ChaChaDice, Watch};
use std::sync::atomic::AtomicU64;
use std::sync::atomic::Ordering::SeqCst;

/// The seed of the dice of the helpers, how many were made, the port at which the net listens, its limits, its
/// descriptors in reserve, and who watches it.
#[derive(Drop)]
pub(crate) struct Common {
    pub(crate) seed: [u8; 32],
    pub(crate) made: AtomicU64,
    pub(crate) port: u16,
    pub(crate) silence: u32,
    pub(crate) rules: Option<Rules>,
    pub(crate) spares: Spares,
    pub(crate) watch: Option<Watch>,
}

impl Common {
    /// Dice with the next stream.
    pub(crate) fn dice(&self) -> ChaChaDice {
        ChaChaDice::new(self.seed, self.made.fetch_add(1, SeqCst))
    }
}
