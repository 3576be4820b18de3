ghost use Rattle.std.specs.Prelude.{◌≡◌, IfErr};
ghost use Rattle.dcr_order.specs.Calling.{told_by};

use crate::PorterName;
use crate::ordering::Ordering;
use dcr_base::{Disk, Link};
use dcr_cell::StoreName;
use dcr_journal::{Call, Outcome};
use dcr_porter::Porter;
use dcr_set::SiteId;

impl<D: Disk, P: Porter, N: StoreName<D> + PorterName<P::Link, <P::Link as Link>::Rest>> Ordering<
    D,
    P,
    N,
> {
    ghost use Rattle.std.specs.Prelude.{◌≡◌, ◌+◌, ◌<◌, ◌≤◌, ◌++◌, ◌∷◌, [], List, ℕ, length, Some, IfOk, IfErr};
    ghost use Rattle.dcr_base.specs.Link.{links_of};
    ghost use Rattle.dcr_cell.specs.ClusterId.{IsCall};
    ghost use Rattle.dcr_cell.specs.Stored.{CanKeep, IsTaped};
    ghost use Rattle.dcr_proj.specs.CoverValue.{atoms_of};
    ghost use Rattle.dcr_journal.specs.Run.{HasNoFault, made_by};
    ghost use Rattle.dcr_journal.specs.declared.call.Call.TheVariants.{Exec};
    ghost use Rattle.dcr_journal.specs.declared.call.Entry.{Entry};
    ghost use Rattle.dcr_journal.specs.declared.call.Outcome.TheVariants.{Faulted};
    ghost use Rattle.dcr_node.specs.Gathering.{nothing_gathered};
    ghost use Rattle.dcr_node.specs.JournalState.{JournalState, execution};
    ghost use Rattle.dcr_node.specs.declared.journal_node.Proposal.{Proposal};
    ghost use Rattle.dcr_order.specs.Calling.{CallEnds, FitsCall, IsAsked, IsStoredWith, told_by};
    ghost use Rattle.dcr_order.specs.Linked.{HasVoted, IsLedFrom};
    ghost use Rattle.dcr_order.specs.Orders.{HasRoomAfter, IsNamedApart, IsOrdering};

    /// Makes a call of a session: asks the site or the sites that it asks, keeps an execution that can be done, and makes its entry
    /// in the journal apart. Where a site that is asked is away, that site comes, and nothing changes but links. An execution that
    /// could not be kept is answered as a fault, and has no entry there; no call comes behind it. The session is one of those that
    /// the order has, 1,024 at most, and the entries with the executions from before are fewer than 200,000.
    pub fn order(&mut self, session: u32, call: &Call) -> Result<Outcome, SiteId>
        requires session { session < N.turn.sessions }
        requires call { IsCall N.cluster call.now }
        requires named { IsNamedApart N.cluster N.turn }
        requires room { HasRoomAfter N.cluster N.capacity }
        requires ready { (J : List Entry) × IsOrdering D.view D.faults (links_of P.Link.gives P.Link.takes P.Link.Rest.unread P.Link.Rest.sent) N.links N.back N.greets N.cluster N.turn N.first J self.old.node self.old.places.items (P.tells.back self.old.porter) self.old.store × HasNoFault J × (length J < N.capacity) }
        ensures made { IfOk result (λ outcome. (J : List Entry) (entry : Entry)
            → IsOrdering D.view D.faults (links_of P.Link.gives P.Link.takes P.Link.Rest.unread P.Link.Rest.sent) N.links N.back N.greets N.cluster N.turn N.first J self.old.node self.old.places.items (P.tells.back self.old.porter) self.old.store
            → HasNoFault J → entry.session ≡ session → entry.seq ≡ made_by session J → entry.call ≡ call.now → entry.outcome ≡ outcome
            → (outcome ≡ Faulted → IsTaped N.first) × IsOrdering D.view D.faults (links_of P.Link.gives P.Link.takes P.Link.Rest.unread P.Link.Rest.sent) N.links N.back N.greets N.cluster N.turn N.first (J ++ entry ∷ []) self.new.node self.new.places.items (P.tells.back self.new.porter) self.new.store) }
        ensures asked { IfErr result (IsAsked (length N.cluster.owned) call.now) }
        ensures away { IfErr result (λ _. (J : List Entry)
            → IsOrdering D.view D.faults (links_of P.Link.gives P.Link.takes P.Link.Rest.unread P.Link.Rest.sent) N.links N.back N.greets N.cluster N.turn N.first J self.old.node self.old.places.items (P.tells.back self.old.porter) self.old.store
            → HasNoFault J → IsOrdering D.view D.faults (links_of P.Link.gives P.Link.takes P.Link.Rest.unread P.Link.Rest.sent) N.links N.back N.greets N.cluster N.turn N.first J self.new.node self.new.places.items (P.tells.back self.new.porter) self.new.store) }
        ensures given { self.new.given ≡ self.old.given }
        ensures links { P.tells.links self.new.porter ≡ P.tells.links self.old.porter }
        ensures faults { P.tells.faults self.new.porter ≡ P.tells.faults self.old.porter }
    {
        self.node.propose_call(session, call);
        self.ask(call)
    }

    // Asks the site or the sites that the call that is out asks, and makes its entry.
    fn ask(&mut self, call: &Call) -> Result<Outcome, SiteId>
        requires out { (p : Proposal) × (self.old.node.out ≡ Some p) × (p.call ≡ call.now) }
        requires call { IsCall N.cluster call.now }
        requires nothing { self.old.node.gathered ≡ nothing_gathered (length self.old.node.alphabets) }
        requires some_site { 1 ≤ length N.cluster.owned }
        requires most_sites { length N.cluster.owned ≤ 64 }
        requires sites { length self.old.node.alphabets ≡ length N.cluster.owned }
        requires led { (first : JournalState) × IsLedFrom (links_of P.Link.gives P.Link.takes P.Link.Rest.unread P.Link.Rest.sent) N.links N.back N.greets N.cluster first self.old.node self.old.places.items (P.tells.back self.old.porter) }
        requires can { CanKeep self.old.store }
        ensures led { (first : JournalState)
            → IsLedFrom (links_of P.Link.gives P.Link.takes P.Link.Rest.unread P.Link.Rest.sent) N.links N.back N.greets N.cluster first self.old.node self.old.places.items (P.tells.back self.old.porter)
            → IsLedFrom (links_of P.Link.gives P.Link.takes P.Link.Rest.unread P.Link.Rest.sent) N.links N.back N.greets N.cluster first self.new.node self.new.places.items (P.tells.back self.new.porter) }
        ensures ends { (p : Proposal) → self.old.node.out ≡ Some p → p.call ≡ call.now → CallEnds self.old.node self.new.node p (told_by result) }
        ensures fits { IfOk result (FitsCall (atoms_of self.old.node.alphabets) call.now) }
        ensures voted { IfOk result (λ outcome. outcome ≡ Faulted → (session i e : ℕ) → call.now ≡ Exec i e → self.old.node.out ≡ Some (execution session i e)
            → HasVoted (links_of P.Link.gives P.Link.takes P.Link.Rest.unread P.Link.Rest.sent) N.links N.back N.greets N.cluster self.old.node self.new.places.items (P.tells.back self.new.porter) session i e) }
        ensures stored { IsStoredWith D.view D.faults N.first N.cluster.old self.old.store self.new.store call.now (told_by result) }
        ensures asked { IfErr result (IsAsked (length N.cluster.owned) call.now) }
        ensures given { self.new.given ≡ self.old.given }
        ensures links { P.tells.links self.new.porter ≡ P.tells.links self.old.porter }
        ensures faults { P.tells.faults self.new.porter ≡ P.tells.faults self.old.porter }
    {
        match call {
            Call::Exec(i, e) => told_or(self.execute(*i, *e), *i),
            Call::Look(i) => told_or(self.ask_one(*i), *i),
            Call::Enabled(i) => told_or(self.ask_one(*i), *i),
            Call::Accepting => self.ask_all(),
        }
    }
}

// What was told, or the site that is away.
fn told_or(outcome: Option<Outcome>, site: SiteId) -> Result<Outcome, SiteId>
    ensures told { told_by result ≡ outcome }
    ensures away { IfErr result (λ i. i ≡ site) }
{
    match outcome {
        None => Err(site),
        Some(outcome) => Ok(outcome),
    }
}
