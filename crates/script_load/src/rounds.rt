//! The rounds of a load.

ghost use Rattle.std.specs.Prelude.{◌≡◌, ◌+◌, ◌/◌, ◌%◌, ◌^◌, ◌<◌, ◌≤◌, ◌++◌, ◌∷◌, [], IfOk, OnOk, flat_map};
ghost use Rattle.script_grammar.specs.declared.line.Line.TheVariants.{Press as presses, Server as serves, Take as takes};
ghost use Rattle.script_load.specs.Words.{Draws as DrawsState, drawn};
ghost use Rattle.script_load.specs.Rounds.{Stand, came, coming, read_and_acknowledge, round_lines, texts_of, turn};
ghost use Rattle.script_load.specs.Draws.{IsDrawn, stand_of};

use crate::draws::Draws;
use crate::text::push_text;
use gate_model::{Asked, Bytes, NoMemory, Share};
use script_grammar::Line;
use std::alloc::Global;

/// How many viewers beside the owner are there at once.
const MOST_OTHERS: usize = 7;

/// The rounds that were drawn under a seed, and where they leave the viewers.
#[derive(Drop)]
pub struct Rounds {
    /// The words are drawn under it.
    pub seed: u64,
    /// How many rounds were drawn.
    pub round: u64,
    /// The words that are still to come.
    pub draws: Draws,
    /// The viewers who are there beside viewer 1, in the order of their numbers.
    pub others: Vec<u32>,
    /// How many viewers have joined.
    pub joined: u32,
}

impl Rounds {
    /// No round was drawn yet.
    pub fn new(alloc: Global, seed: u64) -> Rounds
        ensures drawn { IsDrawn result }
        ensures seed { result.seed ≡ seed }
        ensures round { result.round ≡ 0 }
    {
        Rounds {
            seed,
            round: 0,
            draws: Draws::new(seed),
            others: Vec::new(alloc),
            joined: 1,
        }
    }

    /// The lines of the next round, in order, at most 1,000,000 rounds. The only error is want of memory, and
    /// then no further round can be drawn.
    pub fn next_round(&mut self, alloc: Global) -> Result<Vec<Line>, NoMemory>
        requires drawn { IsDrawn self.old }
        requires few { self.old.round < 1000000 }
        ensures lines { IfOk result (λ lines. lines.items ≡ round_lines (drawn self.old.seed) (self.old.round + 1) (stand_of self.old)) }
        ensures drawn { OnOk result (IsDrawn self.new) }
        ensures seed { self.new.seed ≡ self.old.seed }
        ensures round { self.new.round ≡ self.old.round + 1 }
    {
        let word = self.draws.next();
        self.round += 1;
        let mut lines = Vec::new(alloc);
        lines.push(Line::At(self.round))?;
        match word % 8 {
            0..=4 => lines.push(feed(alloc, &mut self.draws, 1 + word / 8 % 200)?)?,
            5 => lines.push(self.arrival()?)?,
            6 => push_press(&mut lines, word)?,
            _ => self.push_turn(&mut lines)?,
        }
        Ok(lines)
    }

    // A viewer joins, or where eight are there the one with the least number above 1 leaves.
    fn arrival(&mut self) -> Result<Line, NoMemory>
        requires few { self.old.joined ≤ 1000000 }
        ensures line { IfOk result (λ line. line ≡ coming self.old.others.items) }
        ensures others { OnOk result (self.new.others.items ≡ (came (record { drawn = 0; others = self.old.others.items; joined = self.old.joined })).others) }
        ensures joined { OnOk result (self.new.joined ≡ (came (record { drawn = 0; others = self.old.others.items; joined = self.old.joined })).joined) }
        ensures draws { self.new.draws ≡ self.old.draws }
        ensures seed { self.new.seed ≡ self.old.seed }
        ensures round { self.new.round ≡ self.old.round }
    {
        if self.others.len() < MOST_OTHERS {
            self.joined += 1;
            self.others.push(self.joined)?;
            Ok(Line::Join(Asked::View))
        } else {
            Ok(Line::Leave(self.others.remove(0)))
        }
    }

    // Each viewer who is there reads and acknowledges, in the order of their numbers.
    fn push_turn(&self, lines: &mut Vec<Line>) -> Result<(), NoMemory>
        ensures { OnOk result (lines.new.items ≡ lines.old.items ++ turn self.now.others.items) }
    {
        lines.push(Line::Read(1))?;
        lines.push(Line::Acknowledge(1))?;
        for viewer in &self.others {
            lines.push(Line::Read(*viewer))?;
            lines.push(Line::Acknowledge(*viewer))?;
        }
        Ok(())
    }

    /// The lines after the last round: each viewer who is there reads and acknowledges.
    pub fn last_turn(&self, alloc: Global) -> Result<Vec<Line>, NoMemory>
        requires drawn { IsDrawn self.now }
        ensures { IfOk result (λ lines. lines.items ≡ turn (stand_of self.now).others) }
    {
        let mut lines = Vec::new(alloc);
        self.push_turn(&mut lines)?;
        Ok(lines)
    }
}

// Viewer 1 presses a key, and the host is sent it.
fn push_press(lines: &mut Vec<Line>, word: u32) -> Result<(), NoMemory>
    ensures { OnOk result (lines.new.items ≡ lines.old.items ++ presses 1 (97 + word / 8 % 26) ∷ takes 256 ∷ []) }
{
    lines.push(Line::Press(1, 0x61 + word / 8 % 26))?;
    lines.push(Line::Take(256))?;
    Ok(())
}

// The host sends what so many words say.
fn feed(alloc: Global, draws: &mut Draws, count: u32) -> Result<Line, NoMemory>
    requires few { draws.old.place + count < 2 ^ 60 }
    ensures line { IfOk result (λ line. line ≡ serves (texts_of (drawn draws.old.seed) draws.old.place count)) }
    ensures place { OnOk result (draws.new.place ≡ draws.old.place + count) }
    ensures seed { draws.new.seed ≡ draws.old.seed }
{
    let mut bytes = Vec::new(alloc);
    for _piece in 0..count {
        push_text(&mut bytes, draws.next())?;
    }
    Ok(Line::Server(Bytes::of(bytes)))
}
