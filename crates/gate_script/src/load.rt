//! A run of `load`: lines that drawn words make, of which the last alone has an answer that is told.

ghost use Rattle.std.specs.Prelude.{◌≡◌, ◌≤◌, [], ◌∷◌, ℕ, List, All, true, false, IfSome, OnOk};
ghost use Rattle.std.specs.Option.{is_some};
ghost use Rattle.script_grammar.specs.declared.order.Order.{Order as Orders};
ghost use Rattle.script_grammar.specs.declared.order.Order.TheVariants.{Untold};
ghost use Rattle.script_grammar.specs.Grammar.{is_start};
ghost use Rattle.script_grammar.specs.Lines.{IsInRange};
ghost use Rattle.script_load.specs.Words.{drawn};
ghost use Rattle.script_load.specs.Rounds.{IsRoundLine, load_begins, takes_done, untold};
ghost use Rattle.gate_script.specs.declared.sight.Sight.{Sight as Sights};
ghost use Rattle.gate_script.specs.Plays.{Play};
ghost use Rattle.gate_script.specs.Sinks.{Sinks, held};
ghost use Rattle.gate_script.specs.Running.{StandsAt};
ghost use Rattle.gate_script.specs.Loading.{IsLevel, LoadAt, LoadEnds, LoadRunEnds, MayFollow, TakesEnd, TotalsEnd, counted, kind_of};

use crate::kind::Kind;
use crate::level::Level;
use crate::run::Run;
use crate::sight::Sight;
use crate::stop::Stop;
use gate_model::{Asked, Share};
use gate_outside::Sink;
use script_grammar::{Line, Order, Size, TextForm, Totals};
use script_load::Rounds;
use std::alloc::Global;

/// The most entries of a session.
const MOST_ENTRIES: u64 = 1 << 40;

/// The most bytes of a take, and how many takes there may be behind the rounds. No memory holds so many bytes.
const MOST_TAKEN: u32 = 65536;

const MOST_TAKES: u64 = 1 << 40;

/// The run of the lines, as of a script, and what they did.
#[derive(Drop)]
pub(crate) struct Load {
    pub run: Run,
    pub totals: Totals,
}

impl Load {
    /// A run that has done nothing.
    pub(crate) fn new(alloc: Global) -> Load
        ensures stands { (now : Sinks) → LoadAt [] result now now }
        ensures session { is_some result.run.state.session ≡ false }
    {
        Load {
            run: Run::new(alloc, TextForm::Script(MOST_ENTRIES)),
            totals: Totals {
                feeds: 0,
                keys: 0,
                out: 0,
            },
        }
    }

    /// Does the rounds under the seed, and tells what came of them.
    pub(crate) fn run<A: Sink, F: Sink>(
        &mut self,
        alloc: Global,
        seed: u64,
        rounds: u32,
        answers: &mut A,
        frames: &mut F,
    ) -> Result<(), Stop>
        requires stands { (now : Sinks) → LoadAt [] self.old now now }
        requires session { is_some self.old.run.state.session ≡ false }
        requires few { rounds ≤ 1000000 }
        ensures { LoadRunEnds seed rounds result (held (A.written answers.old) (A.faults answers.old) (F.written frames.old) (F.faults frames.old)) (held (A.written answers.new) (A.faults answers.new) (F.written frames.new) (F.faults frames.new)) }
    {
        self.open(alloc, answers, frames)?;
        self.rounds(alloc, seed, rounds, answers, frames)?;
        self.take_all(alloc, answers, frames)?;
        self.tell(alloc, answers, frames)
    }

    // Does the rounds under the seed, and the turn behind them.
    fn rounds<A: Sink, F: Sink>(
        &mut self,
        alloc: Global,
        seed: u64,
        rounds: u32,
        answers: &mut A,
        frames: &mut F,
    ) -> Result<(), Stop>
        requires open { is_some self.old.run.state.session ≡ true }
        requires few { rounds ≤ 1000000 }
        ensures step { (began : Sinks) → LoadAt load_begins self.old began (held (A.written answers.old) (A.faults answers.old) (F.written frames.old) (F.faults frames.old)) → LoadEnds (takes_done (drawn seed) rounds 0) result self.new began (held (A.written answers.new) (A.faults answers.new) (F.written frames.new) (F.faults frames.new)) }
        ensures open { OnOk result (is_some self.new.run.state.session ≡ true) }
    {
        let mut drawn = Rounds::new(alloc, seed);
        for _round in 0..rounds {
            let lines = drawn.next_round(alloc)?;
            self.lines(alloc, lines, answers, frames)?;
        }
        let turn = drawn.last_turn(alloc)?;
        self.lines(alloc, turn, answers, frames)
    }

    // Tells the totals.
    fn tell<A: Sink, F: Sink>(
        &mut self,
        alloc: Global,
        answers: &mut A,
        frames: &mut F,
    ) -> Result<(), Stop>
        requires open { is_some self.old.run.state.session ≡ true }
        ensures { (orders : List Orders) (began : Sinks) → (w : LoadAt orders self.old began (held (A.written answers.old) (A.faults answers.old) (F.written frames.old) (F.faults frames.old))) → TotalsEnd orders self.old.totals w.at.play.history result began (held (A.written answers.new) (A.faults answers.new) (F.written frames.new) (F.faults frames.new)) }
    {
        if self.run.lines >= MOST_ENTRIES {
            return Err(Stop::NoMemory);
        }
        let totals = Order::Told(Line::Totals(self.totals));
        self.run
            .order(alloc, totals, Sight::Played, answers, frames)
    }

    // Starts the session, 80 by 24, with share mode View, and its owner joins.
    fn open<A: Sink, F: Sink>(
        &mut self,
        alloc: Global,
        answers: &mut A,
        frames: &mut F,
    ) -> Result<(), Stop>
        requires session { is_some self.old.run.state.session ≡ false }
        ensures step { (began : Sinks) → LoadAt [] self.old began (held (A.written answers.old) (A.faults answers.old) (F.written frames.old) (F.faults frames.old)) → LoadEnds load_begins result self.new began (held (A.written answers.new) (A.faults answers.new) (F.written frames.new) (F.faults frames.new)) }
        ensures open { OnOk result (is_some self.new.run.state.session ≡ true) }
    {
        let size = Size { cols: 80, rows: 24 };
        let start = Line::Start(size, Share::View, MOST_ENTRIES);
        self.line(alloc, start, answers, frames)?;
        self.line(alloc, Line::Join(Asked::Owner), answers, frames)
    }

    // Takes until nothing waits for the host.
    fn take_all<A: Sink, F: Sink>(
        &mut self,
        alloc: Global,
        answers: &mut A,
        frames: &mut F,
    ) -> Result<(), Stop>
        requires open { is_some self.old.run.state.session ≡ true }
        ensures step { (orders : List Orders) (began : Sinks) → LoadAt orders self.old began (held (A.written answers.old) (A.faults answers.old) (F.written frames.old) (F.faults frames.old)) → TakesEnd orders result self.new began (held (A.written answers.new) (A.faults answers.new) (F.written frames.new) (F.faults frames.new)) }
        ensures open { OnOk result (is_some self.new.run.state.session ≡ true) }
    {
        for _taken in 0..MOST_TAKES {
            if self.level().pending == 0 {
                return Ok(());
            }
            self.line(alloc, Line::Take(MOST_TAKEN), answers, frames)?;
        }
        Err(Stop::NoMemory)
    }

    // Does lines, and tells none of their answers.
    fn lines<A: Sink, F: Sink>(
        &mut self,
        alloc: Global,
        lines: Vec<Line>,
        answers: &mut A,
        frames: &mut F,
    ) -> Result<(), Stop>
        requires open { is_some self.old.run.state.session ≡ true }
        requires rounds { All IsRoundLine lines.items }
        ensures step { (orders : List Orders) (began : Sinks) → LoadAt orders self.old began (held (A.written answers.old) (A.faults answers.old) (F.written frames.old) (F.faults frames.old)) → LoadEnds (untold lines.items orders) result self.new began (held (A.written answers.new) (A.faults answers.new) (F.written frames.new) (F.faults frames.new)) }
        ensures open { OnOk result (is_some self.new.run.state.session ≡ true) }
    {
        let mut lines = lines;
        lines.reverse();
        while let Some(line) = lines.pop() {
            self.line(alloc, line, answers, frames)?;
        }
        Ok(())
    }

    // Does a line, doesn't tell its answer, and counts what it did.
    fn line<A: Sink, F: Sink>(
        &mut self,
        alloc: Global,
        line: Line,
        answers: &mut A,
        frames: &mut F,
    ) -> Result<(), Stop>
        requires follows { MayFollow (is_some self.old.run.state.session) line }
        requires range { IsInRange line }
        ensures step { (orders : List Orders) (began : Sinks) → LoadAt orders self.old began (held (A.written answers.old) (A.faults answers.old) (F.written frames.old) (F.faults frames.old)) → LoadEnds (Untold line ∷ orders) result self.new began (held (A.written answers.new) (A.faults answers.new) (F.written frames.new) (F.faults frames.new)) }
        ensures open { OnOk result (is_some self.new.run.state.session ≡ true) }
    {
        if self.run.lines >= MOST_ENTRIES {
            return Err(Stop::NoMemory);
        }
        let kind = kind_of(&line);
        let before = self.level();
        let order = Order::Untold(line);
        self.run
            .order(alloc, order, Sight::Played, answers, frames)?;
        let after = self.level();
        match counted(self.totals, kind, before, after) {
            Some(totals) => {
                self.totals = totals;
                Ok(())
            }
            None => Err(Stop::NoMemory),
        }
    }

    // What the session has come to, if it has started.
    fn level(&self) -> Level
        ensures { (sight : Sights) (p : Play) → StandsAt sight p self.now.run.state.moment self.now.run.state.session → IsLevel result p.history }
    {
        match &self.run.state.session {
            Some(session) => Level {
                entries: session.desk.entries(),
                pending: session.desk.pending(),
            },
            None => Level {
                entries: 0,
                pending: 0,
            },
        }
    }
}

// What the line adds to.
fn kind_of(line: &Line) -> Kind
    ensures { result ≡ kind_of line.now }
{
    match line {
        Line::Server(_) => Kind::Feed,
        Line::Press(_, _) => Kind::Press,
        Line::Take(_) => Kind::Take,
        _ => Kind::Other,
    }
}

// The totals after a line, where they can be told.
fn counted(totals: Totals, kind: Kind, before: Level, after: Level) -> Option<Totals>
    ensures { IfSome result (λ t. t ≡ counted totals kind before after) }
{
    let added = after.entries.saturating_sub(before.entries);
    let Totals { feeds, keys, out } = totals;
    Some(match kind {
        Kind::Feed => Totals {
            feeds: feeds.checked_add(added)?,
            keys,
            out,
        },
        Kind::Press => Totals {
            feeds,
            keys: keys.checked_add(added)?,
            out,
        },
        Kind::Take => Totals {
            feeds,
            keys,
            out: out.checked_add(before.pending.saturating_sub(after.pending))?,
        },
        Kind::Other => totals,
    })
}
