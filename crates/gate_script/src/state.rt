//! What a run's lines do, in memory.

ghost use Rattle.std.specs.Prelude.{◌≡◌, ◌≢◌, ◌||◌, false, OnOk};
ghost use Rattle.std.specs.Option.{is_some};
ghost use Rattle.script_grammar.specs.declared.line.Line.TheVariants.{Bad};
ghost use Rattle.script_grammar.specs.Lines.{IsInRange, line_in};
ghost use Rattle.script_grammar.specs.Grammar.{in_place, is_start, starts};
ghost use Rattle.gate_script.specs.Calls.{IsCall, MaySee};
ghost use Rattle.gate_script.specs.Plays.{Play};
ghost use Rattle.gate_script.specs.Running.{LeavesOpen, LineEnds, OrderEnds, StandsAt};

use crate::halt::Halt;
use crate::reply::Reply;
use crate::session::Session;
use crate::sight::Sight;
use script_grammar::{Line, Order};
use std::alloc::Global;

/// The moment, the session once it has started, and what the newest order tells.
#[derive(Drop)]
pub(crate) struct State {
    pub moment: u64,
    pub session: Option<Session>,
    pub reply: Reply,
}

impl State {
    /// Nothing was done yet.
    pub(crate) fn new(alloc: Global) -> State
        ensures moment { result.moment ≡ 0 }
        ensures session { is_some result.session ≡ false }
    {
        State {
            moment: 0,
            session: None,
            reply: Reply::new(alloc),
        }
    }

    /// Does an order, and then the reply is what it tells.
    pub(crate) fn order(&mut self, alloc: Global, order: Order, sight: Sight) -> Result<(), Halt>
        requires placed { in_place (is_some self.old.session) (line_in order) ≡ line_in order }
        requires range { IsInRange (line_in order) }
        requires sees { MaySee sight (line_in order) }
        ensures step { (p : Play) → StandsAt sight p self.old.moment self.old.session → OrderEnds sight order p result self.new }
        ensures opened { OnOk result (is_some self.new.session ≡ (starts order || is_some self.old.session)) }
        ensures sound { OnOk result (line_in order ≢ Bad) }
        ensures open { OnOk result (LeavesOpen (line_in order) self.old.session self.new.session) }
    {
        self.reply.clear();
        match order {
            Order::Told(line) => self.line(alloc, line, sight),
            Order::Untold(line) => {
                self.line(alloc, line, sight)?;
                self.reply.answer.clear();
                Ok(())
            }
        }
    }

    // Does a line, and tells of it.
    fn line(&mut self, alloc: Global, line: Line, sight: Sight) -> Result<(), Halt>
        requires placed { in_place (is_some self.old.session) line ≡ line }
        requires range { IsInRange line }
        requires sees { MaySee sight line }
        ensures step { (p : Play) → StandsAt sight p self.old.moment self.old.session → LineEnds sight line p result self.new self.old.reply self.new.reply }
        ensures opened { OnOk result (is_some self.new.session ≡ (is_start line || is_some self.old.session)) }
        ensures sound { OnOk result (line ≢ Bad) }
        ensures open { OnOk result (LeavesOpen line self.old.session self.new.session) }
    {
        match line {
            Line::Blank => Ok(()),
            Line::Bad => Err(Halt::OutsideGrammar),
            Line::At(now) => {
                self.moment = now;
                self.reply.say("now", &[now])
            }
            Line::Start(size, mode, entries) => {
                let now = self.moment;
                let session = Session::start(alloc, size, mode, entries, now, &mut self.reply)?;
                self.session = Some(session);
                Ok(())
            }
            line => self.call(alloc, line, sight),
        }
    }

    // Calls the session, which has started.
    fn call(&mut self, alloc: Global, line: Line, sight: Sight) -> Result<(), Halt>
        requires call { IsCall line }
        requires placed { in_place (is_some self.old.session) line ≡ line }
        requires range { IsInRange line }
        requires sees { MaySee sight line }
        ensures step { (p : Play) → StandsAt sight p self.old.moment self.old.session → LineEnds sight line p result self.new self.old.reply self.new.reply }
        ensures opened { OnOk result (is_some self.new.session ≡ (is_start line || is_some self.old.session)) }
        ensures open { OnOk result (LeavesOpen line self.old.session self.new.session) }
    {
        let now = self.moment;
        let Some(session) = &mut self.session else {
            unreachable!()
        };
        session.call(alloc, line, now, sight, &mut self.reply)
    }
}
