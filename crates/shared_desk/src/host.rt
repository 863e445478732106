//! The host's pass, which lets viewers join and gives out the other passes.

ghost use Rattle.std.specs.Prelude.{◌≡◌, ◌≤◌, ◌+◌, ◌-◌, ◌*◌, ℕ, List, Bool, true, not, Contains, Ok, Err, None, Some, is_some, is_ok, if◌then◌else◌, IfOk, IfSome, OnErr};
ghost use Rattle.gate_model.specs.declared.instr.Instr.{Instr};

use crate::any_pass::AnyPass;
use crate::link::LinkPass;
use crate::member::Member;
use crate::owners::Owners;
use crate::place::Place;
use crate::reader::ReaderPass;
use crate::sender::SenderPass;
use crate::writer::WriterPass;
use desk_core::{Closed, JoinRefusal};
use gate_model::{Asked, Cause, Role};
use std::marker::Model;
use std::sync::Wait;
use wake_spot::Spots;

/// The first pass of a session, which lets viewers join and gives out the other passes: every Join is its own.
/// It counts the passes that are out (this project's own rule).
#[derive(Drop)]
pub struct HostPass {
    pub(crate) member: Member,
    // For the passes that `link` gives.
    pub(crate) spare: Option<Owners>,
    // How many passes were given out and not given back.
    pub(crate) out: u32,
}

impl Model for HostPass {
    ghost use Rattle.shared_desk.specs.Hosts.{HostState};
    ghost use Rattle.shared_desk.specs.HostParts.{host_state, KeepsHost};

    ghost Value = { HostState };

    ghost view = { λ p. host_state p.member p.spare p.out };

    ghost invariant = { λ p. KeepsHost p.member p.spare p.out };
}

impl HostPass {
    ghost use Rattle.gate_model.specs.session.History.{joined as viewers};
    ghost use Rattle.gate_model.specs.Sequences.{IsLater};
    ghost use Rattle.gate_model.specs.declared.answer.Answer.TheVariants.{Close as closed};
    ghost use Rattle.gate_model.specs.declared.event.Event.TheVariants.{Close};
    ghost use Rattle.turn_lock.specs.Views.{joined};
    ghost use Rattle.shared_desk.specs.Called.{Called, Loads};
    ghost use Rattle.shared_desk.specs.Given.{state_of};
    ghost use Rattle.shared_desk.specs.Hosts.{AreLinked, IsPlaceOf, JoinEnds, StaysHost, unlinked, with_link, with_place};

    /// The passes that feed and take. There are none from the second call on.
    pub fn link(&mut self) -> Option<(LinkPass, SenderPass)>
        ensures exact { is_some result ≡ not self.old.linked }
        ensures passes { IfSome result (λ passes. AreLinked self.old passes.0 passes.1) }
        ensures session { self.new.session ≡ self.old.session }
        ensures linked { self.new.linked ≡ true }
        ensures out { self.new.out ≡ self.old.out + unlinked self.old.linked }
        ensures view { self.new.view ≡ (if self.old.linked then self.old.view else with_link self.old.view) }
    {
        let Owners { first, second } = self.spare.take()?;
        self.member.viewers_are_few();
        let link = self.member.part(first, Some(1));
        let sender = self.member.part(second, Some(2));
        self.out += 2;
        Some((LinkPass { member: link }, SenderPass { member: sender }))
    }

    /// `Desk::join`, in a turn, and the place of the viewer that joined. The memory of the place's passes is
    /// taken before the turn; where it is wanting the turn tells whether something else refuses the viewer.
    pub fn join<R: Wait>(
        &mut self,
        rt: &R,
        asked: Asked,
        into: &mut Vec<u8>,
    ) -> Result<Place, JoinRefusal>
        ensures step { JoinEnds self.old.view asked result self.new.view into.old.items into.new.items }
        ensures place { IfOk result (λ place. (place.reader.session ≡ self.old.session) × (place.writer.session ≡ self.old.session)) }
        ensures buffer { OnErr result (into.new.items ≡ into.old.items) }
        ensures stays { StaysHost self.old self.new }
        ensures out { self.new.out ≡ (if is_ok result then self.old.out + 2 else self.old.out) }
    {
        let Ok(owners) = Owners::of(&self.member.lock) else {
            return Err(self.refuse(rt, asked));
        };
        let joined = self.member.join(rt, asked, into)?;
        Ok(self.place(joined.viewer, joined.role, owners))
    }

    /// Why a viewer is refused that asks so, where the memory is wanting for what it is to be given, in a turn: for
    /// that alone where nothing else refuses it. Nobody joins, and it takes no memory (this project's own rule).
    pub fn refuse<R: Wait>(&mut self, rt: &R, asked: Asked) -> JoinRefusal
        ensures step { (text : List ℕ) → JoinEnds self.old.view asked (Err result) self.new.view text text }
        ensures stays { StaysHost self.old self.new }
        ensures out { self.new.out ≡ self.old.out }
    {
        self.member.refuse(rt, asked)
    }

    // The place of the viewer that joined last, which has none yet.
    pub(crate) fn place(&mut self, viewer: u32, role: Role, owners: Owners) -> Place
        requires owners { owners ≡ self.old.session }
        requires last { viewer ≡ viewers self.old.view.seen }
        requires first { 1 ≤ viewer }
        requires given { (ms : List ℕ) × (self.old.view.given ≡ Some ms) × ((n : ℕ) → Contains ms n → n ≤ 2 * viewer) }
        requires few { self.old.out + unlinked self.old.linked ≤ 2 * viewer }
        ensures place { IsPlaceOf self.old viewer role result }
        ensures stays { StaysHost self.old self.new }
        ensures out { self.new.out ≡ self.old.out + 2 }
        ensures view { self.new.view ≡ with_place viewer self.old.view }
    {
        let Owners { first, second } = owners;
        self.member.viewers_are_few();
        let mark = u64::from(viewer) * 2;
        let reader = self.member.part(first, Some(mark + 1));
        let writer = self.member.part(second, Some(mark + 2));
        self.out += 2;
        Place {
            reader: ReaderPass {
                member: reader,
                viewer,
            },
            writer: WriterPass {
                member: writer,
                viewer,
            },
            role,
        }
    }

    /// `Desk::close`, in a turn.
    pub fn close<R: Wait>(&mut self, rt: &R, cause: Cause) -> Result<(), Closed>
        ensures called { Called self.old.view (Close cause) (Ok (closed result)) self.new.view }
        ensures stays { StaysHost self.old self.new }
        ensures out { self.new.out ≡ self.old.out }
    {
        self.member.close(rt, cause)
    }

    /// The spots at which those sleep who wait for news of the session. No clause speaks of them.
    pub fn spots(&self) -> &Spots {
        self.member.spots()
    }

    /// The number of entries that the session has, by one load.
    pub fn newest(&mut self) -> u64
        ensures loads { Loads self.old.view result self.new.view }
        ensures stays { StaysHost self.old self.new }
        ensures out { self.new.out ≡ self.old.out }
    {
        self.member.newest()
    }

    /// Takes a pass of this session back, which is then no longer out. The host has then seen all that the
    /// pass had, whose own places are now the host's.
    pub fn give(&mut self, pass: AnyPass)
        requires session { (state_of pass).session ≡ self.old.session }
        ensures view { self.new.view ≡ joined self.old.view (state_of pass).view }
        ensures begins { IsLater self.old.view.seen self.new.view.seen × IsLater (state_of pass).view.seen self.new.view.seen }
        ensures apart { (p : ℕ) → Contains self.old.view.mine p → ¬ (Contains (state_of pass).view.mine p) }
        ensures stays { StaysHost self.old self.new }
        ensures out { self.new.out ≡ self.old.out - 1 }
    {
        self.member.merge(pass.into_member());
        self.out = self.out.saturating_sub(1);
    }
}
