//! The table of links.

ghost use Rattle.std.specs.Prelude.{◌≡◌, ◌+◌, ◌<◌};

use crate::link::Link;
use gate_model::Text;
use gate_outside::Dice;
use id_table::{AddRefusal, IdTable};
use std::alloc::Global;
use uuid::Uuid;

/// Links by their IDs. Contracts see the map `links_of`.
#[derive(Drop)]
pub struct LinkTable {
    pub(crate) links: IdTable<Link>,
}

/// Why a link wasn't made.
#[derive(Drop)]
pub enum LinkRefusal {
    /// The four IDs that were drawn were all there.
    Conflict([Uuid; 4]),
    /// Want of memory.
    NoMemory,
}

/// Where a link leads: the name of its session, and whether it may give Control.
#[derive(Drop)]
pub struct Spent<'a> {
    pub id: &'a str,
    pub control: bool,
}

impl LinkTable {
    ghost use Rattle.std.specs.Prelude.{◌≡◌, ◌<◌, ◌≤◌, ◌-◌, ℕ, List, None, Some, true, false, is_some, IfOk, IfErr, IfSome, OnErr};
    ghost use Rattle.gate_outside.specs.Helpers.{KeepsCounts};
    ghost use Rattle.id_table.specs.Draws.{IsFirstAbsent};
    ghost use Rattle.id_table.specs.Maps.{Same};
    ghost use Rattle.share_links.specs.Links.{AreDrawnThere, ChangedTo, GivesBack, HasLeft, IfConflict, IsSpent, Leads, Makes, Revokes, Spends, is_usable, links_of};
    ghost use Rattle.share_links.specs.declared.link.Link.{Link};

    /// A table without links.
    pub fn new(alloc: Global) -> LinkTable
        ensures { (id : List ℕ) → links_of result id ≡ None }
    {
        LinkTable {
            links: IdTable::new(alloc),
        }
    }

    /// Makes a link to the session of this name, with 1 to 1,000,000 uses, under the first absent ID of up to four that
    /// are drawn. Conflict comes with the four drawn IDs where all were there. Refused, it leaves the links as they were.
    pub fn make<X: Dice>(
        &mut self,
        alloc: Global,
        dice: &mut X,
        id: &str,
        control: bool,
        uses: u32,
    ) -> Result<Uuid, LinkRefusal>
        requires some { 1 ≤ uses }
        requires few { uses ≤ 1000000 }
        ensures made { IfOk result (λ link. Makes link id.now control uses (links_of self.old) (links_of self.new)) }
        ensures first { IfOk result (λ link. IfSome (X.helper dice.old).draws (λ draws. IsFirstAbsent (links_of self.old) draws link)) }
        ensures same { OnErr result (Same (links_of self.old) (links_of self.new)) }
        ensures conflict { IfErr result (λ refusal. IfConflict refusal (AreDrawnThere (X.helper dice.old).draws (links_of self.old))) }
        ensures counts { KeepsCounts (X.helper dice.old) (X.helper dice.new) }
    {
        let Ok(id) = String::from_str(alloc, id) else {
            return Err(LinkRefusal::NoMemory);
        };
        let link = Link {
            id: Text::of(id),
            control,
            uses,
            left: uses,
            revoked: false,
        };
        match self.links.add(dice, link) {
            Ok(id) => Ok(id),
            Err(AddRefusal::Conflict(_, drawn)) => Err(LinkRefusal::Conflict(drawn)),
            Err(AddRefusal::NoMemory(_)) => Err(LinkRefusal::NoMemory),
        }
    }

    // Whether somebody may join by the link.
    pub(crate) fn is_usable(&self, link: &Uuid) -> bool
        ensures { result ≡ is_usable (links_of self.now link.now) }
    {
        match self.links.get(link) {
            Some(it) => it.left > 0 && !it.revoked,
            None => false,
        }
    }

    /// Takes a use of the link. False comes exactly where the link is absent, revoked or has no use left.
    pub fn take_use(&mut self, link: &Uuid) -> bool
        ensures { Spends link.now result (links_of self.old) (links_of self.new) }
    {
        if !self.is_usable(link) {
            return false;
        }
        self.take_one(link);
        true
    }

    // Takes a use of a link that is usable.
    pub(crate) fn take_one(&mut self, link: &Uuid)
        requires { is_usable (links_of self.old link.now) ≡ true }
        ensures { ChangedTo link.now (λ old. HasLeft old (old.left - 1)) (links_of self.old) (links_of self.new) }
    {
        if let Some(it) = self.links.get_mut(link) {
            it.left = it.left.saturating_sub(1);
        }
    }

    /// Where the link leads, also one that is used up or revoked. None comes exactly where it is absent.
    pub fn find(&self, link: &Uuid) -> Option<Spent<'_>>
        ensures { Leads result (links_of self.now link.now) }
    {
        match self.links.get(link) {
            Some(it) => Some(Spent {
                id: it.id.as_str(),
                control: it.control,
            }),
            None => None,
        }
    }

    /// Spends a use of the link, as `take_use` does, and answers where the link leads. None comes exactly where the link
    /// is absent, revoked or has no use left. What the links are afterwards is told by `take_use` alone, since this
    /// answer is lent by the table.
    pub fn spend(&mut self, link: &Uuid) -> Option<Spent<'_>>
        ensures spends { is_some result ≡ is_usable (links_of self.old link.now) }
        ensures leads { IfSome result (λ spent. Leads (Some spent) (links_of self.old link.now)) }
    {
        if self.take_use(link) {
            self.find(link)
        } else {
            None
        }
    }

    /// Gives back a use of the link, of which one was spent.
    pub fn give_back(&mut self, link: &Uuid)
        requires { IsSpent link.now (links_of self.old) }
        ensures { GivesBack link.now (links_of self.old) (links_of self.new) }
    {
        if let Some(it) = self.links.get_mut(link) {
            if it.left < it.uses {
                it.left = one_more(it.left, it.uses);
            }
        }
    }

    /// Revokes the link: nobody can join by it any more, and who has joined stays. False comes exactly where it is
    /// absent; it is true of one that was revoked before.
    pub fn revoke(&mut self, link: &Uuid) -> bool
        ensures { Revokes link.now result (links_of self.old) (links_of self.new) }
    {
        match self.links.get_mut(link) {
            Some(it) => {
                it.revoked = true;
                true
            }
            None => false,
        }
    }
}

// One more than a number that isn't the most.
fn one_more(left: u32, most: u32) -> u32
    requires { left < most }
    ensures { result ≡ left + 1 }
{
    left + 1
}
