ghost use Rattle.std.specs.Prelude.{◌≡◌, ℕ};
ghost use Rattle.dcr_site.specs.declared.site.Decision.{Decision as Decided};
ghost use Rattle.dcr_wire.specs.declared.message.Message.TheVariants.{Vote};

use crate::PorterName;
use crate::keeping::keep;
use crate::ordering::Ordering;
use dcr_base::{Disk, Link};
use dcr_cell::StoreName;
use dcr_journal::Outcome;
use dcr_porter::Porter;
use dcr_set::{EventId, SiteId};
use dcr_site::Decision;
use dcr_wire::Message;

impl<D: Disk, P: Porter, N: StoreName<D> + PorterName<P::Link, <P::Link as Link>::Rest>> Ordering<
    D,
    P,
    N,
> {
    ghost use Rattle.std.specs.Prelude.{◌≡◌, ◌<◌, ℕ, length, false, Some, IfSome, if◌then◌else◌};
    ghost use Rattle.dcr_base.specs.Link.{links_of};
    ghost use Rattle.dcr_cell.specs.Stored.{CanKeep};
    ghost use Rattle.dcr_proj.specs.CoverValue.{atoms_of};
    ghost use Rattle.dcr_site.specs.declared.site.Decision.TheVariants.{Enabled};
    ghost use Rattle.dcr_journal.specs.Answer.{outcome_decided};
    ghost use Rattle.dcr_journal.specs.declared.call.Call.TheVariants.{Exec};
    ghost use Rattle.dcr_journal.specs.declared.call.Outcome.TheVariants.{Faulted};
    ghost use Rattle.dcr_node.specs.JournalState.{JournalState, execution};
    ghost use Rattle.dcr_order.specs.Calling.{CallEnds, FitsCall, IsStoredWith};
    ghost use Rattle.dcr_order.specs.Linked.{HasVoted, IsLedFrom};

    /// Asks the site for its vote on the execution that is out, keeps the execution where it can be done, and only then hands the
    /// vote to the journal. None where the site is away. An execution that could not be kept is taken back, and the site that was
    /// asked is away then.
    pub(crate) fn execute(&mut self, i: SiteId, e: EventId) -> Option<Outcome>
        requires out { (session : ℕ) × (self.old.node.out ≡ Some (execution session i e)) }
        requires site { i < length N.cluster.owned }
        requires sites { length self.old.node.alphabets ≡ length N.cluster.owned }
        requires led { (first : JournalState)
            × IsLedFrom (links_of P.Link.gives P.Link.takes P.Link.Rest.unread P.Link.Rest.sent) N.links N.back N.greets N.cluster first self.old.node self.old.places.items (P.tells.back self.old.porter) }
        requires can { CanKeep self.old.store }
        ensures led { (first : JournalState)
            → IsLedFrom (links_of P.Link.gives P.Link.takes P.Link.Rest.unread P.Link.Rest.sent) N.links N.back N.greets N.cluster first self.old.node self.old.places.items (P.tells.back self.old.porter)
            → IsLedFrom (links_of P.Link.gives P.Link.takes P.Link.Rest.unread P.Link.Rest.sent) N.links N.back N.greets N.cluster first self.new.node self.new.places.items (P.tells.back self.new.porter) }
        ensures ends { (session : ℕ) → self.old.node.out ≡ Some (execution session i e) → CallEnds self.old.node self.new.node (execution session i e) result }
        ensures fits { IfSome result (FitsCall (atoms_of self.old.node.alphabets) (Exec i e)) }
        ensures voted { IfSome result (λ outcome. outcome ≡ Faulted → (session : ℕ) → self.old.node.out ≡ Some (execution session i e)
            → HasVoted (links_of P.Link.gives P.Link.takes P.Link.Rest.unread P.Link.Rest.sent) N.links N.back N.greets N.cluster self.old.node self.new.places.items (P.tells.back self.new.porter) session i e) }
        ensures stored { IsStoredWith D.view D.faults N.first N.cluster.old self.old.store self.new.store (Exec i e) result }
        ensures given { self.new.given ≡ self.old.given }
        ensures links { P.tells.links self.new.porter ≡ P.tells.links self.old.porter }
        ensures faults { P.tells.faults self.new.porter ≡ P.tells.faults self.old.porter }
    {
        let Some(ask) = self.node.ask() else {
            unreachable!()
        };
        let Some(vote) = self.vote(i, &ask) else {
            self.node.withdraw();
            return None;
        };
        let decision = decision_in(&vote);
        if !self.may_enter(i, e, &decision) {
            self.end(i);
            self.node.withdraw();
            return Some(Outcome::Faulted);
        }
        self.node.step(&vote);
        Some(Outcome::of_decision(decision))
    }

    // Whether the execution may have its entry: it can't be done, or it was kept.
    fn may_enter(&mut self, i: SiteId, e: EventId, decision: &Decision) -> bool
        requires can { CanKeep self.old.store }
        ensures node { self.new.node ≡ self.old.node }
        ensures places { self.new.places ≡ self.old.places }
        ensures porter { self.new.porter ≡ self.old.porter }
        ensures given { self.new.given ≡ self.old.given }
        ensures refused { result ≡ false → decision.now ≡ Enabled }
        ensures stored { IsStoredWith D.view D.faults N.first N.cluster.old self.old.store self.new.store (Exec i e) (Some (if result then outcome_decided decision.now else Faulted)) }
    {
        match decision {
            Decision::Enabled => keep::<D, N>(&mut self.store, i, e),
            Decision::NotHere => true,
            Decision::Blocked(_) => true,
        }
    }
}

// What a vote decides.
fn decision_in(message: &Message) -> Decision
    requires { (number : ℕ) × (site : ℕ) × (decision : Decided) × (message.now ≡ Vote number site decision) }
    ensures { (number site : ℕ) (decision : Decided) → message.now ≡ Vote number site decision → result ≡ decision }
{
    match message {
        Message::Ask { .. } => unreachable!(),
        Message::Vote { decision, .. } => *decision,
        Message::Apply { .. } => unreachable!(),
    }
}
