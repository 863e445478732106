//! A source whose first byte can be looked at, and whose pastes can be typed.

ghost use Rattle.std.specs.Prelude.{◌≡◌, IfOk, IsErr, OnErr, OnOk};
ghost use Rattle.gate_outside.specs.Edge.{CountsFault, came};
ghost use Rattle.gate_service.specs.Lookaheads.{IsFirst, faults_of, has_begun, left_of, looked, source_of, typed_of};
ghost use Rattle.gate_service.specs.Typings as typing;

use crate::typing::Typing;
use clip_stream::Paster;
use gate_model::NoMemory;
use gate_outside::{Failed, Source};
use std::alloc::Global;

/// A source whose first byte can be looked at, and is still the first that is left; and from which, once that is asked,
/// what is pasted comes as keys (this project's own).
#[derive(Drop)]
pub struct Lookahead<S> {
    byte: Option<u8>,
    source: Typing<S>,
}

impl<S: Source> Lookahead<S> {
    /// A source of what `source` gives.
    pub fn new(source: S) -> Lookahead<S>
        ensures left { left_of S.left result ≡ S.left source }
        ensures source { source_of result ≡ source }
    {
        Lookahead {
            byte: None,
            source: Typing::new(source),
        }
    }

    /// The first byte that is left, or None at the source's end. What is left stays as it was; a fault comes only
    /// where the count of faults rose in this call.
    pub fn peek(&mut self) -> Result<Option<u8>, Failed>
        ensures same { left_of S.left self.new ≡ left_of S.left self.old }
        ensures first { IfOk result (IsFirst (left_of S.left self.old)) }
        ensures begun { has_begun self.new ≡ has_begun self.old }
        ensures faults { CountsFault (IsErr result) (faults_of S.faults self.old) (faults_of S.faults self.new) }
    {
        if self.byte.is_none() {
            self.byte = next(&mut self.source)?;
        }
        Ok(self.byte)
    }

    /// From here on what is pasted comes as keys: what is left is `pasted` of what was, unless it is so already. It takes
    /// all the memory that this needs; where that is wanting all stays as it was.
    pub fn begin_pastes(&mut self, alloc: Global) -> Result<(), NoMemory>
        ensures typed { OnOk result (left_of S.left self.new ≡ typed_of S.left self.old) }
        ensures unchanged { OnErr result (left_of S.left self.new ≡ left_of S.left self.old) }
        ensures faults { faults_of S.faults self.new ≡ faults_of S.faults self.old }
    {
        if self.source.is_begun() {
            return Ok(());
        }
        let mut pastes = Paster::new(alloc)?;
        if let Some(byte) = self.byte {
            pastes.feed(&[byte]);
            self.byte = None;
        }
        self.source.begin(pastes);
        Ok(())
    }
}

// The next byte of a source, or None at its end.
fn next<S: Source>(source: &mut Typing<S>) -> Result<Option<u8>, Failed>
    ensures came { IfOk result (λ byte. typing.left_of S.left source.old ≡ came (looked byte) (typing.left_of S.left source.new)) }
    ensures first { IfOk result (IsFirst (typing.left_of S.left source.old)) }
    ensures unchanged { OnErr result (typing.left_of S.left source.new ≡ typing.left_of S.left source.old) }
    ensures begun { typing.has_begun source.new ≡ typing.has_begun source.old }
    ensures faults { CountsFault (IsErr result) (typing.faults_of S.faults source.old) (typing.faults_of S.faults source.new) }
{
    let mut into = [0u8; 1];
    let count = source.read(&mut into)?;
    if count == 0 {
        Ok(None)
    } else {
        Ok(Some(into[0]))
    }
}

impl<S: Source> Source for Lookahead<S> {
    ghost use Rattle.gate_service.specs.Lookaheads.{faults_of, left_of};

    ghost left = { λ s. left_of S.left s };

    ghost faults = { λ s. faults_of S.faults s };

    fn read(&mut self, into: &mut [u8]) -> Result<usize, Failed> {
        match self.byte {
            Some(byte) => {
                into[0] = byte;
                self.byte = None;
                Ok(1)
            }
            None => self.source.read(into),
        }
    }
}
