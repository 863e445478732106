//! The source.

ghost use Rattle.std.specs.Prelude.{◌≡◌};

use crate::paster::Paster;
use gate_model::NoMemory;
use gate_outside::{Failed, Source};
use std::alloc::Global;

/// A source of what `pasted` makes of an inner source's bytes. Its reads take no memory.
#[derive(Drop)]
pub struct ClipSource<S> {
    source: S,
    // How many reads were given up.
    given_up: u64,
    pastes: Paster,
}

impl<S: Source> ClipSource<S> {
    ghost use Rattle.std.specs.Prelude.{◌≡◌, ℕ, List, false, IfOk};
    ghost use Rattle.clip_stream.specs.Pasted.{pasted};
    ghost use Rattle.clip_stream.specs.Sources.{given_up, has_ended, pastes_of, rest_of, source_of};

    /// A source over `source`, which has taken all its memory: an instruction and 262,144 pasted bytes. For want of
    /// memory `source` is dropped.
    pub fn new(alloc: Global, source: S) -> Result<ClipSource<S>, NoMemory>
        ensures source { IfOk result (λ clips. source_of clips ≡ source) }
        ensures given_up { IfOk result (λ clips. given_up clips ≡ 0) }
        ensures pasted { IfOk result (λ clips. (more : List ℕ) → rest_of (pastes_of clips) more ≡ pasted more) }
        ensures begun { IfOk result (λ clips. has_ended (pastes_of clips) ≡ false) }
    {
        let pastes = Paster::new(alloc)?;
        Ok(ClipSource {
            source,
            given_up: 0,
            pastes,
        })
    }
}

impl<S: Source> Source for ClipSource<S> {
    ghost use Rattle.std.specs.Prelude.{◌≡◌, ◌<◌, ◌≤◌, [], Some, length, take, IfOk, IsErr, OnErr};
    ghost use Rattle.gate_outside.specs.Edge.{AtEnd, CountsFault, came, most_faults};
    ghost use Rattle.clip_stream.specs.Sources.{Fails, Gives, IsOver, faults_of, given_up, left_of, pastes_of};

    ghost left = { λ s. left_of S.left s };

    ghost faults = { λ s. faults_of S.faults s };

    /// Gives what is due for what comes of the inner source: at least one byte, or none at its end, after which the inner
    /// source isn't read any more. It takes no memory.
    fn read(&mut self, into: &mut [u8]) -> Result<usize, Failed>
        requires { 0 < length into.old }
        ensures gives { IfOk result (λ n. Gives S.left self.old self.new (take n into.new)) }
        ensures over { IfOk result (λ n. n ≡ 0 → IsOver (pastes_of self.new)) }
        ensures counted { IfOk result (λ _. given_up self.new ≡ given_up self.old) }
        ensures fails { OnErr result (Fails S.left S.faults self.old self.new) }

        // The trait's.
        ensures bound { IfOk result (λ n. n ≤ length into.old) }
        ensures ok { IfOk result (λ n. left_of S.left self.old ≡ came (take n into.new) (left_of S.left self.new)) }
        ensures end { IfOk result (λ n. n ≡ 0 → AtEnd (left_of S.left self.old)) }
        ensures empty { IfOk result (λ n. left_of S.left self.old ≡ Some [] → n ≡ 0) }
        ensures unchanged { OnErr result (left_of S.left self.new ≡ left_of S.left self.old) }
        ensures untouched { OnErr result (into.new ≡ into.old) }
        ensures few { faults_of S.faults self.old ≤ most_faults → faults_of S.faults self.new ≤ most_faults }
        ensures faults { CountsFault (IsErr result) (faults_of S.faults self.old) (faults_of S.faults self.new) }
    {
        match self.pastes.read(&mut self.source, into)? {
            Some(count) => Ok(count),
            None => {
                self.given_up = self.given_up.saturating_add(1);
                Err(Failed)
            }
        }
    }
}
