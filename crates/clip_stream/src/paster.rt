//! What makes keys of pasted text, over any source that it is lent.

ghost use Rattle.std.specs.Prelude.{◌≡◌, ◌≤◌, length, true};

use crate::clip::{Clip, is_kept};
use crate::held::Held;
use gate_model::NoMemory;
use gate_outside::{Failed, Source};
use guac_framing::{Next, next_instruction};
use std::alloc::Global;

/// What makes keys of pasted text. It is lent a source at each read, or fed by who reads a source by himself. It has all
/// its memory from its making on.
#[derive(Drop)]
pub struct Paster {
    held: Held,
    // So many of the held bytes are whole instructions that are kept.
    kept: usize,
    // All that comes is given as it is.
    is_raw: bool,
    // The source was at its end, and isn't read any more.
    is_ended: bool,
    clip: Clip,
    ghost within: { kept ≤ length held },
}

impl Paster {
    ghost use Rattle.std.specs.Prelude.{◌≡◌, ◌<◌, ◌≤◌, ℕ, List, [], None, Some, true, false, length, take, drop, ◌++◌, IfOk, IsErr, OnErr, IfSome, Ok};
    ghost use Rattle.gate_outside.specs.Edge.{CountsFault, most_faults};
    ghost use Rattle.clip_stream.specs.Pasted.{pasted};
    ghost use Rattle.clip_stream.specs.Sources.{Gave, HasRoom, IsDone, IsOver, Keeps, Went, WentFar, has_ended, rest_of, unread_of, waits};

    /// One that has read nothing: room for an instruction and for 262,144 pasted bytes.
    pub fn new(alloc: Global) -> Result<Paster, NoMemory>
        ensures pasted { IfOk result (λ it. (more : List ℕ) → rest_of it more ≡ pasted more) }
        ensures begun { IfOk result (λ it. has_ended it ≡ false) }
        ensures room { IfOk result HasRoom }
    {
        Ok(Paster {
            held: Held::new(alloc)?,
            kept: 0,
            is_raw: false,
            is_ended: false,
            clip: Clip::new(alloc)?,
        })
    }

    // Whether something can be given at once.
    fn waits(&self) -> bool
        ensures { result ≡ waits self.now }
    {
        self.clip.waits() || self.kept > 0 || self.is_raw && self.held.len() > 0
    }

    // Takes up the next whole instruction, if nothing waits; else it answers false.
    fn step(&mut self) -> bool
        ensures keeps { Keeps self.old self.new }
        ensures ended { self.new.is_ended ≡ self.old.is_ended }
        ensures fewer { result ≡ true → length (drop self.new.kept self.new.held) < length (drop self.old.kept self.old.held) }
        ensures no_more { length (drop self.new.kept self.new.held) ≤ length (drop self.old.kept self.old.held) }
        ensures done { result ≡ false → waits self.new ≡ false → IsDone self.new }
    {
        if self.is_raw || self.clip.waits() {
            return false;
        }
        match next_instruction(&self.held.as_slice()[self.kept..]) {
            Next::Whole(frame, count) => {
                if is_kept(&frame) {
                    self.kept += count;
                    return true;
                }
                if self.kept > 0 {
                    return false;
                }
                self.clip.take_up(&frame);
                self.held.pass(count);
                true
            }
            Next::More => false,
            Next::Bad(_) => {
                self.is_raw = true;
                false
            }
        }
    }

    // Takes up whole instructions until something waits to be given, or none is whole.
    fn take_up(&mut self)
        ensures keeps { Keeps self.old self.new }
        ensures ended { self.new.is_ended ≡ self.old.is_ended }
        ensures done { waits self.new ≡ false → IsDone self.new }
    {
        let mut goes_on = true;
        while goes_on {
            goes_on = self.step();
        }
    }

    // .. and where the source was at its end gives what is unfinished as it is.
    fn settle(&mut self)
        ensures keeps { Keeps self.old self.new }
        ensures ended { self.new.is_ended ≡ self.old.is_ended }
        ensures done { waits self.new ≡ false → IsDone self.new }
        ensures raw { self.new.is_ended ≡ true → waits self.new ≡ false → self.new.is_raw ≡ true }
    {
        self.take_up();
        if self.is_ended && !self.waits() {
            self.is_raw = true;
        }
    }

    // How many of the held bytes may be given.
    fn most(&self) -> usize
        ensures within { result ≤ length self.now.held }
        ensures kept { self.now.is_raw ≡ false → result ≡ self.now.kept }
        ensures raw { self.now.is_raw ≡ true → result ≡ length self.now.held }
    {
        if self.is_raw {
            self.held.len()
        } else {
            self.kept
        }
    }

    // Gives some of what waits, and nothing only where nothing waits.
    fn give(&mut self, into: &mut [u8]) -> usize
        requires { 0 < length into.old }
        ensures some { waits self.old ≡ true → 0 < result }
        ensures within { result ≤ length into.old }
        ensures gave { Gave self.old self.new (take result into.new) }
        ensures ended { self.new.is_ended ≡ self.old.is_ended }
        ensures no_more { length self.new.held ≤ length self.old.held }
    {
        if self.clip.waits() {
            return self.clip.give(into);
        }
        let most = self.most();
        let n = self.held.give(most, into);
        self.kept = self.kept.saturating_sub(n);
        n
    }

    // Reads the source once, and answers whether bytes came. Where none came the source is at its end, and what is held
    // is to be given as it is.
    fn read_more<S: Source>(&mut self, source: &mut S) -> Result<bool, Failed>
        requires begun { self.old.is_ended ≡ false }
        requires idle { waits self.old ≡ false }
        requires done { IsDone self.old }
        ensures went { Went (S.left source.old) (S.left source.new) self.old self.new [] }
        ensures came { result ≡ Ok true → WentFar 1 (S.left source.old) (S.left source.new) self.old self.new [] }
        ensures end { result ≡ Ok false → self.new.is_ended ≡ true }
        ensures raw { result ≡ Ok false → self.new.is_raw ≡ true }
        ensures faults { CountsFault (IsErr result) (S.faults source.old) (S.faults source.new) }
        ensures few { S.faults source.old ≤ most_faults → S.faults source.new ≤ most_faults }
    {
        let more = self.held.read(source)?;
        if !more {
            self.is_raw = true;
            self.is_ended = true;
        }
        Ok(more)
    }

    /// Takes up bytes of a source, as many as there is room for, and answers how many.
    pub fn feed(&mut self, bytes: &[u8]) -> usize
        requires { has_ended self.old ≡ false }
        ensures within { result ≤ length bytes.now }
        ensures some { HasRoom self.old → 0 < length bytes.now → 0 < result }
        ensures fed { (more : List ℕ) → rest_of self.old (take result bytes.now ++ more) ≡ rest_of self.new more }
        ensures begun { has_ended self.new ≡ false }
    {
        self.held.fill(bytes)
    }

    /// Says that nothing more comes of the source.
    pub fn finish(&mut self)
        ensures ended { has_ended self.new ≡ true }
        ensures none_comes { (more : List ℕ) → rest_of self.new more ≡ rest_of self.old [] }
    {
        self.is_ended = true;
    }

    /// Gives what is due for what was fed: at least one byte, or none where nothing is due before more is fed, for which
    /// there is room then, or nothing is due any more.
    pub fn pull(&mut self, into: &mut [u8]) -> usize
        requires { 0 < length into.old }
        ensures within { result ≤ length into.old }
        ensures gave { Gave self.old self.new (take result into.new) }
        ensures ended { has_ended self.new ≡ has_ended self.old }
        ensures room { result ≡ 0 → HasRoom self.new }
        ensures over { result ≡ 0 → has_ended self.old ≡ true → IsOver self.new }
    {
        self.settle();
        self.give(into)
    }

    /// Gives what is due for what comes of the source: at least one byte, or none at its end, after which the source
    /// isn't read any more. None comes where 2^64 - 1 reads of the source, each of at least one byte, brought nothing
    /// to give.
    pub fn read<S: Source>(
        &mut self,
        source: &mut S,
        into: &mut [u8],
    ) -> Result<Option<usize>, Failed>
        requires { 0 < length into.old }
        ensures went { IfOk result (λ n. IfSome n (λ n. Went (S.left source.old) (S.left source.new) self.old self.new (take n into.new))) }
        ensures bound { IfOk result (λ n. IfSome n (λ n. n ≤ length into.old)) }
        ensures end { result ≡ Ok (Some 0) → IsOver self.new }
        ensures gave_up { result ≡ Ok None → WentFar most_faults (S.left source.old) (S.left source.new) self.old self.new [] × (into.new ≡ into.old) }
        ensures failed { OnErr result (Went (S.left source.old) (S.left source.new) self.old self.new []) }
        ensures untouched { OnErr result (into.new ≡ into.old) }
        ensures faults { CountsFault (IsErr result) (S.faults source.old) (S.faults source.new) }
        ensures few { S.faults source.old ≤ most_faults → S.faults source.new ≤ most_faults }
    {
        for _turn in 0..u64::MAX {
            self.settle();
            if self.is_ended || self.waits() {
                return Ok(Some(self.give(into)));
            }
            if !self.read_more(source)? {
                return Ok(Some(self.give(into)));
            }
        }
        Ok(None)
    }
}
