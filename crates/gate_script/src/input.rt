//! The input of a run, which comes in any parts and is done piece by piece.

ghost use Rattle.std.specs.Prelude.{◌≡◌, ◌++◌, ◌+◌, ◌^◌, ◌<◌, ◌≤◌, ◌⊎◌, [], ℕ, List, Option, length, take, true, None, IfOk, IfErr, OnOk};
ghost use Rattle.gate_outside.specs.Edge.{Rose, came};
ghost use Rattle.script_grammar.specs.Pieces.{first_piece};

use crate::run::Run;
use crate::stop::Stop;
use gate_outside::{Sink, Source};
use script_grammar::{most_of, next_part};
use std::alloc::Global;

/// How many bytes are read at once.
const READ_SIZE: usize = 65536;

/// A run, and the bytes of the piece that has begun.
#[derive(Drop)]
pub(crate) struct Input {
    pub run: Run,
    pub piece: Vec<u8>,
}

impl Input {
    ghost use Rattle.script_grammar.specs.Grammar.{all_lines, most_of};
    ghost use Rattle.gate_script.specs.Sinks.{Sinks, held};
    ghost use Rattle.gate_script.specs.Running.{BytesEnd, HasCut, HasRead, IsReady, LastEnds, PartEnds, RunEnds, StepEnds};

    // Takes more bytes of the input, and does the pieces that are whole.
    fn take<A: Sink, F: Sink>(
        &mut self,
        alloc: Global,
        bytes: &[u8],
        answers: &mut A,
        frames: &mut F,
    ) -> Result<(), Stop>
        requires ready { IsReady self.old.run }
        requires begun { first_piece (most_of self.old.run.form) self.old.piece.items ≡ None }
        ensures step { (before : List ℕ) (began : Sinks) →
            HasCut self.old.run.form before self.old.piece.items self.old.run began (held (A.written answers.old) (A.faults answers.old) (F.written frames.old) (F.faults frames.old)) →
            BytesEnd self.old.run.form (before ++ bytes.now) result self.new.piece.items self.new.run began (held (A.written answers.new) (A.faults answers.new) (F.written frames.new) (F.faults frames.new)) }
        ensures ready { OnOk result (IsReady self.new.run) }
        ensures form { self.new.run.form ≡ self.old.run.form }
        ensures begun { OnOk result (first_piece (most_of self.old.run.form) self.new.piece.items ≡ None) }
        ensures grows { OnOk result (self.new.run.read + length self.new.piece.items ≡ self.old.run.read + length self.old.piece.items + length bytes.now) }
    {
        let mut at = 0;
        while at < bytes.len() {
            at += self.take_part(alloc, &bytes[at..], answers, frames)?;
        }
        Ok(())
    }

    // Takes the bytes that go on with the piece that has begun, and answers how many.
    fn take_part<A: Sink, F: Sink>(
        &mut self,
        alloc: Global,
        bytes: &[u8],
        answers: &mut A,
        frames: &mut F,
    ) -> Result<usize, Stop>
        requires ready { IsReady self.old.run }
        requires begun { first_piece (most_of self.old.run.form) self.old.piece.items ≡ None }
        requires some { 0 < length bytes.now }
        ensures step { (before : List ℕ) (began : Sinks) →
            HasCut self.old.run.form before self.old.piece.items self.old.run began (held (A.written answers.old) (A.faults answers.old) (F.written frames.old) (F.faults frames.old)) →
            PartEnds self.old.run.form before bytes.now result self.new.piece.items self.new.run began (held (A.written answers.new) (A.faults answers.new) (F.written frames.new) (F.faults frames.new)) }
        ensures some { IfOk result (λ n. 0 < n) }
        ensures within { IfOk result (λ n. n ≤ length bytes.now) }
        ensures ready { OnOk result (IsReady self.new.run) }
        ensures form { self.new.run.form ≡ self.old.run.form }
        ensures begun { OnOk result (first_piece (most_of self.old.run.form) self.new.piece.items ≡ None) }
        ensures grows { IfOk result (λ n. self.new.run.read + length self.new.piece.items ≡ self.old.run.read + length self.old.piece.items + n) }
    {
        let part = next_part(most_of(self.run.form), &self.piece, bytes);
        self.piece.extend_from_slice(&bytes[..part.count])?;
        if part.whole {
            self.run.piece(alloc, &self.piece, answers, frames)?;
            self.piece.clear();
        }
        Ok(part.count)
    }

    // At the end of the input the bytes that are left make a piece, and then come the last lines.
    fn finish<A: Sink, F: Sink>(
        &mut self,
        alloc: Global,
        answers: &mut A,
        frames: &mut F,
    ) -> Result<(), Stop>
        requires ready { IsReady self.old.run }
        requires begun { first_piece (most_of self.old.run.form) self.old.piece.items ≡ None }
        ensures { (bytes : List ℕ) (began : Sinks) →
            HasCut self.old.run.form bytes self.old.piece.items self.old.run began (held (A.written answers.old) (A.faults answers.old) (F.written frames.old) (F.faults frames.old)) →
            LastEnds (all_lines self.old.run.form bytes) result began (held (A.written answers.new) (A.faults answers.new) (F.written frames.new) (F.faults frames.new)) }
    {
        let piece: &[u8] = &self.piece;
        if piece.is_empty() {
            return self.run.finish(alloc, answers, frames);
        }
        self.run.piece(alloc, piece, answers, frames)?;
        self.run.finish(alloc, answers, frames)
    }

    /// Reads the input to its end, and does it.
    pub(crate) fn read_all<S: Source, A: Sink, F: Sink>(
        &mut self,
        alloc: Global,
        source: &mut S,
        answers: &mut A,
        frames: &mut F,
    ) -> Result<(), Stop>
        requires ready { IsReady self.old.run }
        requires empty { self.old.piece.items ≡ [] }
        requires read { self.old.run.read ≡ 0 }
        ensures later { S.faults source.old ≤ S.faults source.new }
        ensures step { (began : Sinks) →
            HasCut self.old.run.form [] [] self.old.run began (held (A.written answers.old) (A.faults answers.old) (F.written frames.old) (F.faults frames.old)) →
            HasRead (S.left source.old) (S.left source.new) (λ bytes. RunEnds self.old.run.form bytes (S.left source.new) (Rose (S.faults source.old) (S.faults source.new)) result began (held (A.written answers.new) (A.faults answers.new) (F.written frames.new) (F.faults frames.new))) }
    {
        let mut buffer = vec![in alloc; 0u8; READ_SIZE]?;
        'input: for _ in 0..u64::MAX {
            if !self.read_once(alloc, source, &mut buffer, answers, frames)? {
                return self.finish(alloc, answers, frames);
            }
        }
        unreachable!()
    }

    // Reads once, and answers whether bytes came; where none came the input has ended.
    fn read_once<S: Source, A: Sink, F: Sink>(
        &mut self,
        alloc: Global,
        source: &mut S,
        buffer: &mut [u8],
        answers: &mut A,
        frames: &mut F,
    ) -> Result<bool, Stop>
        requires ready { IsReady self.old.run }
        requires begun { first_piece (most_of self.old.run.form) self.old.piece.items ≡ None }
        requires room { 0 < length buffer.old }
        ensures step { (left0 : Option (List ℕ)) (bytes : List ℕ) (began : Sinks) → left0 ≡ came bytes (S.left source.old) →
            HasCut self.old.run.form bytes self.old.piece.items self.old.run began (held (A.written answers.old) (A.faults answers.old) (F.written frames.old) (F.faults frames.old)) →
            HasRead left0 (S.left source.new) (λ bytes. StepEnds self.old.run.form bytes (S.left source.new) (Rose (S.faults source.old) (S.faults source.new)) result self.new.piece.items self.new.run began (held (A.written answers.new) (A.faults answers.new) (F.written frames.new) (F.faults frames.new))) }
        ensures later { S.faults source.old ≤ S.faults source.new }
        ensures ready { OnOk result (IsReady self.new.run) }
        ensures form { self.new.run.form ≡ self.old.run.form }
        ensures begun { OnOk result (first_piece (most_of self.old.run.form) self.new.piece.items ≡ None) }
        ensures grows { IfOk result (λ came. came ≡ true → self.old.run.read + length self.old.piece.items < self.new.run.read + length self.new.piece.items) }
    {
        match source.read(buffer) {
            Ok(count) => {
                self.take(alloc, &buffer[..count], answers, frames)?;
                Ok(count > 0)
            }
            Err(_) => Err(Stop::ReadFault),
        }
    }
}
