//! Dice by ChaCha20.

ghost use Rattle.std.specs.Prelude.{None};

use gate_outside::{Counted, Dice};
use rand_chacha::ChaCha20Rng;
use rand_core::SeedableRng;
use rand_core::utils::NextWord;

/// Dice that give the words of one stream of ChaCha20, each least byte first (RFC 8439, section 2.3, with a
/// stream's number of 64 bits in the place of the last two words of the nonce). They don't tell what is to
/// come.
#[derive(Drop)]
pub struct ChaChaDice {
    words: ChaCha20Rng,
}

impl ChaChaDice {
    /// Dice under the seed, at the beginning of the stream.
    pub fn new(seed: [u8; 32], stream: u64) -> ChaChaDice {
        let mut words = ChaCha20Rng::from_seed(seed);
        words.set_stream(stream);
        ChaChaDice { words }
    }
}

impl Counted for ChaChaDice {
    ghost helper = { λ _. record { dial_faults = 0; start_faults = 0; draws = None } };
}

impl Dice for ChaChaDice {
    fn bytes(&mut self) -> [u8; 16] {
        let mut drawn = [0; 16];
        for word in drawn.chunks_exact_mut(4) {
            word.copy_from_slice(&self.words.next_word().to_le_bytes());
        }
        drawn
    }
}
