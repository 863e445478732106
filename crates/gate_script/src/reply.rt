//! What is told of the calls of a session, in memory: answers, and lines of the frames.

ghost use Rattle.std.specs.Prelude.{◌≡◌, [], ◌∷◌, ◌++◌, codes, decimal, flat_map, OnOk};
ghost use Rattle.gate_script.specs.Told.{agree_words, answer_line, bad_text_line, blank_and, frames_line, given_line, kind_word, pixel_line, read_told, refused_line, taken_text, took_line, totals_lines};

use crate::halt::Halt;
use canvas::Dot;
use gate_model::{Colour, NoMemory, ReadAnswer};
use guac_framing::{BadAt, BadKind};
use itoa::Buffer;
use script_grammar::{Totals, push_digits};
use std::alloc::Global;

/// The answers, and the lines of the frames, that were told and aren't written yet.
#[derive(Drop)]
pub(crate) struct Reply {
    pub answer: Vec<u8>,
    pub frame: Vec<u8>,
}

/// What a run comes to: what its lines did, how many viewers have joined, the newest stamp, and the sum of
/// all colours of what viewer 1 sees.
#[derive(Clone, Copy, Debug, PartialEq, Eq)]
pub(crate) struct Numbers {
    pub totals: Totals,
    pub joins: u64,
    pub stamp: u64,
    pub sum: u64,
}

impl Reply {
    ghost use Rattle.gate_script.specs.Calls.{Adds, read_shown};

    /// A reply that tells nothing.
    pub(crate) fn new(alloc: Global) -> Reply
        ensures answer { result.answer.items ≡ [] }
        ensures frame { result.frame.items ≡ [] }
    {
        Reply {
            answer: Vec::new(alloc),
            frame: Vec::new(alloc),
        }
    }

    /// Takes away all that was told.
    pub(crate) fn clear(&mut self)
        ensures answer { self.new.answer.items ≡ [] }
        ensures frame { self.new.frame.items ≡ [] }
    {
        self.answer.clear();
        self.frame.clear();
    }

    /// Tells a line of the frames, a viewer's number, or 0 for a frame, a blank and the text, and an
    /// answer.
    pub(crate) fn report(
        &mut self,
        viewer: u32,
        text: &[u8],
        word: &str,
        numbers: &[u64],
    ) -> Result<(), Halt>
        ensures { Adds result self.old self.new (answer_line word.now numbers.now) (frames_line viewer text.now) }
    {
        push_frames_line(&mut self.frame, viewer, text)?;
        push_answer_line(&mut self.answer, word, numbers)?;
        Ok(())
    }

    /// Tells an answer: a word and numbers, with a blank before each number.
    pub(crate) fn say(&mut self, word: &str, numbers: &[u64]) -> Result<(), Halt>
        ensures { Adds result self.old self.new (answer_line word.now numbers.now) [] }
    {
        push_answer_line(&mut self.answer, word, numbers)?;
        Ok(())
    }

    /// Tells the answer to a read, and the line of the frames where the viewer was given this text.
    pub(crate) fn say_read(
        &mut self,
        viewer: u32,
        text: &[u8],
        answer: ReadAnswer,
    ) -> Result<(), Halt>
        ensures { Adds result self.old self.new (read_told answer) (read_shown viewer text.now answer) }
    {
        match answer {
            ReadAnswer::Frames {
                count,
                stamp,
                closed,
            } => {
                let numbers = [u64::from(count), stamp];
                self.give(viewer, text, "frames", &numbers, closed)
            }
            ReadAnswer::Fresh { stamp, closed } => {
                self.give(viewer, text, "fresh", &[stamp], closed)
            }
            ReadAnswer::Ended => self.say("ended", &[]),
            ReadAnswer::Empty => self.say("empty", &[]),
            ReadAnswer::Hold { .. } => self.say("hold", &[]),
        }
    }

    // Tells the answer to a read that gave a text, and whether it ended with the closing instruction.
    fn give(
        &mut self,
        viewer: u32,
        text: &[u8],
        word: &str,
        numbers: &[u64],
        closed: bool,
    ) -> Result<(), Halt>
        ensures { Adds result self.old self.new (given_line word.now numbers.now closed) (frames_line viewer text.now) }
    {
        push_frames_line(&mut self.frame, viewer, text)?;
        push_given_line(&mut self.answer, word, numbers, closed)?;
        Ok(())
    }

    /// Tells the answer to a refused call.
    pub(crate) fn refuse(&mut self, status: u16) -> Result<(), Halt>
        ensures { Adds result self.old self.new (refused_line status) [] }
    {
        self.say("refused", &[u64::from(status)])
    }

    /// Tells what a place shows.
    pub(crate) fn say_dot(&mut self, dot: Dot) -> Result<(), Halt>
        ensures { Adds result self.old self.new (pixel_line dot) [] }
    {
        match dot {
            Dot::Outside => self.say("pixel outside", &[]),
            Dot::Clear => self.say("pixel clear", &[]),
            Dot::Painted(Colour { red, green, blue }) => {
                let numbers = [u64::from(red), u64::from(green), u64::from(blue)];
                self.say("pixel", &numbers)
            }
        }
    }

    /// Tells the bytes that a take handed out.
    pub(crate) fn say_took(&mut self, bytes: &[u8]) -> Result<(), Halt>
        ensures { Adds result self.old self.new (took_line bytes.now) [] }
    {
        push_took_line(&mut self.answer, bytes)?;
        Ok(())
    }

    /// Tells what a run comes to, and whether its viewers see the same, in seven answers.
    pub(crate) fn say_totals(&mut self, numbers: Numbers, agree: bool) -> Result<(), Halt>
        ensures { Adds result self.old self.new (totals_lines numbers.totals numbers.joins numbers.stamp numbers.sum agree) [] }
    {
        let Numbers {
            totals: Totals { feeds, keys, out },
            joins,
            stamp,
            sum,
        } = numbers;
        self.say("feeds", &[feeds])?;
        self.say("joins", &[joins])?;
        self.say("keys", &[keys])?;
        self.say("out", &[out])?;
        self.say("stamp", &[stamp])?;
        self.say("sum", &[sum])?;
        self.say(agree_words(agree), &[])
    }

    /// Tells where a text is bad, and why.
    pub(crate) fn say_bad(&mut self, at: BadAt) -> Result<(), Halt>
        ensures { Adds result self.old self.new (bad_text_line at) [] }
    {
        push_bad_line(&mut self.answer, at.place, kind_word(at.kind))?;
        Ok(())
    }
}

// The answer whether viewers see the same.
fn agree_words(agree: bool) -> &'static str
    ensures { result.now ≡ agree_words agree }
{
    if agree { "agree yes" } else { "agree no" }
}

// Appends the line that says which bytes a take handed out.
fn push_took_line(line: &mut Vec<u8>, bytes: &[u8]) -> Result<(), NoMemory>
    ensures { OnOk result (line.new.items ≡ line.old.items ++ took_line bytes.now) }
{
    line.extend_from_slice(b"took ")?;
    push_taken(line, bytes)?;
    line.push(b'\n')?;
    Ok(())
}

// Appends the digits of the bytes that were taken, or a dash where there are none.
fn push_taken(line: &mut Vec<u8>, bytes: &[u8]) -> Result<(), NoMemory>
    ensures { OnOk result (line.new.items ≡ line.old.items ++ taken_text bytes.now) }
{
    if bytes.is_empty() {
        line.push(b'-')?;
        Ok(())
    } else {
        push_digits(line, bytes)
    }
}

// The word for why a text is bad.
fn kind_word(kind: BadKind) -> &'static str
    ensures { result.now ≡ kind_word kind }
{
    match kind {
        BadKind::Digit => "digit",
        BadKind::Length => "length",
        BadKind::Separator => "separator",
        BadKind::Utf8 => "utf8",
        BadKind::TooMany => "many",
        BadKind::TooLong => "long",
    }
}

// Appends the line that says where a text is bad, and why.
fn push_bad_line(line: &mut Vec<u8>, place: usize, kind: &str) -> Result<(), NoMemory>
    ensures { OnOk result (line.new.items ≡ line.old.items ++ codes "bad" ++ 32 ∷ decimal place ++ 32 ∷ kind.now ++ 10 ∷ []) }
{
    let mut buffer = Buffer::new();
    line.extend_from_slice(b"bad ")?;
    line.extend_from_slice(buffer.format(place).as_bytes())?;
    line.push(b' ')?;
    line.extend_from_slice(kind.as_bytes())?;
    line.push(b'\n')?;
    Ok(())
}

// Appends a line of the frames.
#[tactic(auto, unfolding(crate::specs::Told::frames_line))]
fn push_frames_line(line: &mut Vec<u8>, viewer: u32, text: &[u8]) -> Result<(), NoMemory>
    ensures { OnOk result (line.new.items ≡ line.old.items ++ frames_line viewer text.now) }
{
    let mut buffer = Buffer::new();
    line.extend_from_slice(buffer.format(viewer).as_bytes())?;
    line.push(b' ')?;
    line.extend_from_slice(text)?;
    line.push(b'\n')?;
    Ok(())
}

/// Appends an answer.
#[tactic(auto, unfolding(crate::specs::Told::answer_line))]
pub(crate) fn push_answer_line(
    line: &mut Vec<u8>,
    word: &str,
    numbers: &[u64],
) -> Result<(), NoMemory>
    ensures { OnOk result (line.new.items ≡ line.old.items ++ answer_line word.now numbers.now) }
{
    push_words(line, word, numbers)?;
    line.push(b'\n')?;
    Ok(())
}

// Appends the answer to a read that gave something.
#[tactic(auto, unfolding(crate::specs::Told::given_line))]
fn push_given_line(
    line: &mut Vec<u8>,
    word: &str,
    numbers: &[u64],
    closed: bool,
) -> Result<(), NoMemory>
    ensures { OnOk result (line.new.items ≡ line.old.items ++ given_line word.now numbers.now closed) }
{
    push_words(line, word, numbers)?;
    if closed {
        line.extend_from_slice(b" closed")?;
    }
    line.push(b'\n')?;
    Ok(())
}

// Appends a word, and numbers with a blank before each.
fn push_words(line: &mut Vec<u8>, word: &str, numbers: &[u64]) -> Result<(), NoMemory>
    ensures { OnOk result (line.new.items ≡ line.old.items ++ word.now ++ flat_map blank_and numbers.now) }
{
    line.extend_from_slice(word.as_bytes())?;
    for number in numbers {
        let mut buffer = Buffer::new();
        line.push(b' ')?;
        line.extend_from_slice(buffer.format(*number).as_bytes())?;
    }
    Ok(())
}
