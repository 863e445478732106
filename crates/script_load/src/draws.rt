//! The words that a load draws.

ghost use Rattle.std.specs.Prelude.{◌≡◌, ◌+◌, ◌^◌, ◌<◌};
ghost use Rattle.script_load.specs.Words.{drawn, generator, seed_bytes};

use rand_chacha::ChaCha8Rng;
use rand_core::SeedableRng;
use rand_core::utils::NextWord;
use std::marker::Model;

/// The words of ChaCha8 under a seed, which contracts see as the seed and the place of the next word.
#[derive(Drop)]
pub struct Draws {
    seed: u64,
    words: ChaCha8Rng,
}

impl Model for Draws {
    ghost use Rattle.std.specs.Prelude.{◌≡◌};
    ghost use Rattle.script_load.specs.Words.{Draws as DrawsState, generator};

    ghost Value = { DrawsState };

    ghost view = { λ d. record { seed = d.seed; place = d.words.word_pos } };

    ghost invariant = { λ d. d.words ≡ generator d.seed d.words.word_pos };
}

impl Draws {
    /// The words under the seed, at the beginning.
    pub fn new(seed: u64) -> Draws
        ensures seed { result.seed ≡ seed }
        ensures place { result.place ≡ 0 }
    {
        Draws {
            seed,
            words: ChaCha8Rng::from_seed(seed_of(seed)),
        }
    }

    /// The next word.
    pub fn next(&mut self) -> u32
        requires few { self.old.place < 2 ^ 60 }
        ensures word { result ≡ drawn self.old.seed self.old.place }
        ensures place { self.new.place ≡ self.old.place + 1 }
        ensures seed { self.new.seed ≡ self.old.seed }
    {
        self.words.next_word()
    }
}

// The seed of the generator: the number, least byte first, and then zeros.
fn seed_of(seed: u64) -> [u8; 32]
    ensures { result ≡ seed_bytes seed }
{
    let mut bytes = [0; 32];
    bytes[0..8].copy_from_slice(&seed.to_le_bytes());
    bytes
}
