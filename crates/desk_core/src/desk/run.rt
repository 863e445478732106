//! Calls made one after the other.

ghost use Rattle.std.specs.Prelude.{◌≡◌, ℕ, ◌<◌, [], get_or, length};
ghost use Rattle.gate_model.specs.session.History.{History};
ghost use Rattle.gate_model.specs.declared.event.Event.{Event};
ghost use Rattle.gate_model.specs.declared.event.Event.TheVariants.{Take};
ghost use Rattle.gate_model.specs.session.Calls.{MeetsCondition};
ghost use Rattle.desk_core.specs.Calls.{feed_answer, join_answer, read_answer, resize_answer, write_answer};

use crate::desk::Desk;
use gate_model::{
    Answer, Answers, Bytes, Event, FeedRefusal, JoinRefusal, Joined, NoMemory, ReadAnswer,
    ReadRefusal, ResizeRefusal, WriteRefusal, Written,
};
use std::alloc::Global;

impl Desk {
    ghost use Rattle.desk_core.specs.Desk.{Stands};
    ghost use Rattle.desk_core.specs.Calls.{Ended, RunEnds};

    /// Makes the calls one after the other, answers each in order, and appends what its joins and reads
    /// append. It takes the memory of the answers before the first call, and stops at the first call that lacks
    /// memory, where nothing else stops it: what was done before it stands, and it does nothing (this project's
    /// own rule).
    pub fn run(
        &mut self,
        alloc: Global,
        events: &[Event],
        into: &mut Vec<u8>,
    ) -> Result<Answers, NoMemory>
        requires { (i : ℕ) (other : Event) → i < length events.now → MeetsCondition (get_or events.now i other) }
        ensures step { (h : History) → Stands self.old h → RunEnds h events.now result self.old self.new into.old.items into.new.items }
    {
        // So a call that was made is answered.
        let mut answers = Vec::with_capacity(alloc, events.len())?;
        for event in events {
            let answer = self.call(alloc, event, into)?;
            answers.push(answer)?;
        }
        Ok(Answers::of(answers))
    }

    // Makes the call.
    fn call(&mut self, alloc: Global, event: &Event, into: &mut Vec<u8>) -> Result<Answer, NoMemory>
        requires { MeetsCondition event.now }
        ensures step { (h : History) → Stands self.old h → Ended h event.now result self.old self.new into.old.items into.new.items }
    {
        match event {
            Event::Feed { bytes, now } => feed_answer(self.feed(alloc, bytes.as_slice(), *now)),
            Event::Join { asked } => join_answer(self.join(*asked, into)),
            Event::Read { viewer } => read_answer(self.read(*viewer, into)),
            Event::Write { viewer, acts } => {
                write_answer(self.write(alloc, *viewer, acts.as_slice()))
            }
            Event::Resize { viewer, cols, rows } => {
                resize_answer(self.resize(alloc, *viewer, *cols, *rows))
            }
            Event::Take { most } => self.take_at_most(alloc, *most),
            Event::Leave { viewer } => Ok(Answer::Leave(self.leave(*viewer))),
            Event::Close { cause } => Ok(Answer::Close(self.close(*cause))),
        }
    }

    // Takes at most so many bytes.
    fn take_at_most(&mut self, alloc: Global, most: u64) -> Result<Answer, NoMemory>
        ensures step { (h : History) → Stands self.old h → Ended h (Take most) result self.old self.new [] [] }
    {
        let room = most.min(self.outgoing.len() as u64) as usize;
        if room == 0 {
            let bytes = Bytes::of(Vec::new(alloc));
            let closed = self.cause.is_some();
            return Ok(Answer::Take { bytes, closed });
        }
        let mut bytes = vec![in alloc; 0; room]?;
        let closed = self.take(&mut bytes).closed;
        let bytes = Bytes::of(bytes);
        Ok(Answer::Take { bytes, closed })
    }
}

// The answer to a feed, where memory didn't run short.
fn feed_answer(fed: Result<u64, FeedRefusal>) -> Result<Answer, NoMemory>
    ensures { result ≡ feed_answer fed }
{
    match fed {
        Err(FeedRefusal::NoMemory) => Err(NoMemory),
        fed => Ok(Answer::Feed(fed)),
    }
}

// The answer to a join, where memory didn't run short.
fn join_answer(joined: Result<Joined, JoinRefusal>) -> Result<Answer, NoMemory>
    ensures { result ≡ join_answer joined }
{
    match joined {
        Err(JoinRefusal::NoMemory) => Err(NoMemory),
        joined => Ok(Answer::Join(joined)),
    }
}

// The answer to a read, where memory didn't run short.
fn read_answer(given: Result<ReadAnswer, ReadRefusal>) -> Result<Answer, NoMemory>
    ensures { result ≡ read_answer given }
{
    match given {
        Err(ReadRefusal::NoMemory) => Err(NoMemory),
        given => Ok(Answer::Read(given)),
    }
}

// The answer to a write, where memory didn't run short.
fn write_answer(written: Result<Written, WriteRefusal>) -> Result<Answer, NoMemory>
    ensures { result ≡ write_answer written }
{
    match written {
        Err(WriteRefusal::NoMemory) => Err(NoMemory),
        written => Ok(Answer::Write(written)),
    }
}

// The answer to a change of size, where memory didn't run short.
fn resize_answer(resized: Result<u64, ResizeRefusal>) -> Result<Answer, NoMemory>
    ensures { result ≡ resize_answer resized }
{
    match resized {
        Err(ResizeRefusal::NoMemory) => Err(NoMemory),
        resized => Ok(Answer::Resize(resized)),
    }
}
