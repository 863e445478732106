//! A source in which what is pasted may be typed as keys.

ghost use Rattle.std.specs.Prelude.{◌≡◌};

use clip_stream::Paster;
use gate_outside::{Failed, Source};

/// A source that gives what an inner one gives, until its pastes begin: from then on what is pasted comes as keys
/// (`pasted` of clip_stream). Its reads take no memory.
#[derive(Drop)]
pub(crate) struct Typing<S> {
    source: S,
    pastes: Option<Paster>,
    // How many reads were given up.
    given_up: u64,
}

impl<S: Source> Typing<S> {
    ghost use Rattle.std.specs.Prelude.{◌≡◌, None, Some};
    ghost use Rattle.gate_service.specs.Typings.{given_up, has_begun, inner_of, pastes_of};

    /// A source of what `source` gives.
    pub(crate) fn new(source: S) -> Typing<S>
        ensures source { inner_of result ≡ source }
        ensures pastes { pastes_of result ≡ None }
        ensures given_up { given_up result ≡ 0 }
    {
        Typing {
            source,
            pastes: None,
            given_up: 0,
        }
    }

    /// Whether its pastes have begun.
    pub(crate) fn is_begun(&self) -> bool
        ensures { result ≡ has_begun self.now }
    {
        self.pastes.is_some()
    }

    /// Its pastes begin, by this machine.
    pub(crate) fn begin(&mut self, pastes: Paster)
        ensures source { inner_of self.new ≡ inner_of self.old }
        ensures pastes { pastes_of self.new ≡ Some pastes }
        ensures given_up { given_up self.new ≡ given_up self.old }
    {
        self.pastes = Some(pastes);
    }
}

impl<S: Source> Source for Typing<S> {
    ghost use Rattle.std.specs.Prelude.{◌≡◌, ◌<◌, ◌≤◌, [], Some, length, take, IfOk, IfSome, IsErr, OnErr};
    ghost use Rattle.gate_outside.specs.Edge.{AtEnd, CountsFault, came, most_faults};
    ghost use Rattle.gate_service.specs.Typings.{faults_of, has_begun, left_of};

    ghost left = { λ s. left_of S.left s };

    ghost faults = { λ s. faults_of S.faults s };

    fn read(&mut self, into: &mut [u8]) -> Result<usize, Failed>
        requires { 0 < length into.old }
        ensures begun { has_begun self.new ≡ has_begun self.old }

        // The trait's.
        ensures bound { IfOk result (λ n. n ≤ length into.old) }
        ensures ok { IfOk result (λ n. left_of S.left self.old ≡ came (take n into.new) (left_of S.left self.new)) }
        ensures end { IfOk result (λ n. n ≡ 0 → AtEnd (left_of S.left self.old)) }
        ensures empty { IfOk result (λ n. left_of S.left self.old ≡ Some [] → n ≡ 0) }
        ensures unchanged { OnErr result (left_of S.left self.new ≡ left_of S.left self.old) }
        ensures untouched { OnErr result (IfSome (left_of S.left self.old) (λ _. into.new ≡ into.old)) }
        ensures few { faults_of S.faults self.old ≤ most_faults → faults_of S.faults self.new ≤ most_faults }
        ensures faults { CountsFault (IsErr result) (faults_of S.faults self.old) (faults_of S.faults self.new) }
    {
        let Some(pastes) = &mut self.pastes else {
            return self.source.read(into);
        };
        match pastes.read(&mut self.source, into)? {
            Some(count) => Ok(count),
            None => {
                self.given_up = self.given_up.saturating_add(1);
                Err(Failed)
            }
        }
    }
}
