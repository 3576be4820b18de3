use crate::PorterName;
use crate::ordering::Ordering;
use dcr_base::Link;
use dcr_cell::ClusterName;
use dcr_journal::Outcome;
use dcr_porter::Porter;
use dcr_set::SiteId;

impl<D, P: Porter, N: ClusterName + PorterName<P::Link, <P::Link as Link>::Rest>> Ordering<
    D,
    P,
    N,
> {
    ghost use Rattle.std.specs.Prelude.{◌≡◌, ◌<◌, ◌≤◌, length, true, false, Some, IfSome, IfOk, IfErr};
    ghost use Rattle.dcr_base.specs.Link.{links_of};
    ghost use Rattle.dcr_turn.specs.Pushing.{is_fault};
    ghost use Rattle.dcr_wire.specs.declared.question.Asked.{Asked};
    ghost use Rattle.dcr_proj.specs.CoverValue.{atoms_of};
    ghost use Rattle.dcr_journal.specs.declared.call.Call.TheVariants.{Accepting};
    ghost use Rattle.dcr_node.specs.Gathering.{nothing_gathered};
    ghost use Rattle.dcr_node.specs.JournalState.{JournalState, asks_of};
    ghost use Rattle.dcr_node.specs.declared.journal_node.Proposal.{Proposal};
    ghost use Rattle.dcr_order.specs.Calling.{AsksOne, CallEnds, FitsCall, HasHeard, Rests};
    ghost use Rattle.dcr_order.specs.Linked.{IsLedFrom};

    /// Asks a site what the call that is out asks of it, and hands the answer to the journal. False where the site is away; then the
    /// call is out as before.
    pub(crate) fn tell(&mut self, i: SiteId) -> bool
        requires asks { (p : Proposal) × (asked : Asked) × (self.old.node.out ≡ Some p) × (asks_of p.call i ≡ Some asked) }
        requires site { i < length N.cluster.owned }
        requires sites { length self.old.node.alphabets ≡ length N.cluster.owned }
        requires led { (first : JournalState)
            × IsLedFrom (links_of P.Link.gives P.Link.takes P.Link.Rest.unread P.Link.Rest.sent) N.links N.back N.greets N.cluster first self.old.node self.old.places.items (P.tells.back self.old.porter) }
        ensures led { (first : JournalState)
            → IsLedFrom (links_of P.Link.gives P.Link.takes P.Link.Rest.unread P.Link.Rest.sent) N.links N.back N.greets N.cluster first self.old.node self.old.places.items (P.tells.back self.old.porter)
            → IsLedFrom (links_of P.Link.gives P.Link.takes P.Link.Rest.unread P.Link.Rest.sent) N.links N.back N.greets N.cluster first self.new.node self.new.places.items (P.tells.back self.new.porter) }
        ensures away { result ≡ false → self.new.node ≡ self.old.node }
        ensures heard { (p : Proposal) (asked : Asked) → result ≡ true → self.old.node.out ≡ Some p → asks_of p.call i ≡ Some asked → HasHeard self.old.node self.new.node i asked }
        ensures alphabets { self.new.node.alphabets ≡ self.old.node.alphabets }
        ensures store { self.new.store ≡ self.old.store }
        ensures many { length self.new.places.items ≡ length self.old.places.items }
        ensures given { self.new.given ≡ self.old.given }
        ensures links { P.tells.links self.new.porter ≡ P.tells.links self.old.porter }
        ensures faults { P.tells.faults self.new.porter ≡ P.tells.faults self.old.porter }
    {
        let Some(question) = self.node.asks(i) else {
            unreachable!()
        };
        let Some(answer) = self.answer(i, &question) else {
            return false;
        };
        self.node.hear(&answer);
        true
    }

    /// Makes the entry of the look or the question what is enabled that is out, by what its site tells. None where the site is
    /// away.
    pub(crate) fn ask_one(&mut self, i: SiteId) -> Option<Outcome>
        requires asks { (p : Proposal) × (self.old.node.out ≡ Some p) × AsksOne p.call i }
        requires site { i < length N.cluster.owned }
        requires sites { length self.old.node.alphabets ≡ length N.cluster.owned }
        requires led { (first : JournalState)
            × IsLedFrom (links_of P.Link.gives P.Link.takes P.Link.Rest.unread P.Link.Rest.sent) N.links N.back N.greets N.cluster first self.old.node self.old.places.items (P.tells.back self.old.porter) }
        ensures led { (first : JournalState)
            → IsLedFrom (links_of P.Link.gives P.Link.takes P.Link.Rest.unread P.Link.Rest.sent) N.links N.back N.greets N.cluster first self.old.node self.old.places.items (P.tells.back self.old.porter)
            → IsLedFrom (links_of P.Link.gives P.Link.takes P.Link.Rest.unread P.Link.Rest.sent) N.links N.back N.greets N.cluster first self.new.node self.new.places.items (P.tells.back self.new.porter) }
        ensures ends { (p : Proposal) → self.old.node.out ≡ Some p → AsksOne p.call i → CallEnds self.old.node self.new.node p result }
        ensures no_fault { IfSome result (λ outcome. is_fault outcome ≡ false) }
        ensures fits { IfSome result (λ outcome. (p : Proposal) → self.old.node.out ≡ Some p → AsksOne p.call i → FitsCall (atoms_of self.old.node.alphabets) p.call outcome) }
        ensures store { self.new.store ≡ self.old.store }
        ensures given { self.new.given ≡ self.old.given }
        ensures links { P.tells.links self.new.porter ≡ P.tells.links self.old.porter }
        ensures faults { P.tells.faults self.new.porter ≡ P.tells.faults self.old.porter }
    {
        if !self.tell(i) {
            self.node.withdraw();
            return None;
        }
        let Some(entry) = self.node.journal().last() else {
            unreachable!()
        };
        Some(entry.outcome)
    }

    /// Makes the entry of the question whether the marking is accepting that is out, by what all sites tell, of which nothing was
    /// gathered yet. The first site that is away where one is.
    pub(crate) fn ask_all(&mut self) -> Result<Outcome, SiteId>
        requires asks { (p : Proposal) × (self.old.node.out ≡ Some p) × (p.call ≡ Accepting) }
        requires nothing { self.old.node.gathered ≡ nothing_gathered (length self.old.node.alphabets) }
        requires some_site { 1 ≤ length N.cluster.owned }
        requires most_sites { length N.cluster.owned ≤ 64 }
        requires sites { length self.old.node.alphabets ≡ length N.cluster.owned }
        requires led { (first : JournalState)
            × IsLedFrom (links_of P.Link.gives P.Link.takes P.Link.Rest.unread P.Link.Rest.sent) N.links N.back N.greets N.cluster first self.old.node self.old.places.items (P.tells.back self.old.porter) }
        ensures led { (first : JournalState)
            → IsLedFrom (links_of P.Link.gives P.Link.takes P.Link.Rest.unread P.Link.Rest.sent) N.links N.back N.greets N.cluster first self.old.node self.old.places.items (P.tells.back self.old.porter)
            → IsLedFrom (links_of P.Link.gives P.Link.takes P.Link.Rest.unread P.Link.Rest.sent) N.links N.back N.greets N.cluster first self.new.node self.new.places.items (P.tells.back self.new.porter) }
        ensures ends { IfOk result (λ outcome. (p : Proposal) → self.old.node.out ≡ Some p → p.call ≡ Accepting → CallEnds self.old.node self.new.node p (Some outcome)) }
        ensures no_fault { IfOk result (λ outcome. is_fault outcome ≡ false) }
        ensures fits { IfOk result (FitsCall (atoms_of self.old.node.alphabets) Accepting) }
        ensures away { IfErr result (λ i. (i < length N.cluster.owned) × Rests self.old.node self.new.node) }
        ensures store { self.new.store ≡ self.old.store }
        ensures given { self.new.given ≡ self.old.given }
        ensures links { P.tells.links self.new.porter ≡ P.tells.links self.old.porter }
        ensures faults { P.tells.faults self.new.porter ≡ P.tells.faults self.old.porter }
    {
        let sites = self.places.len() as u16;
        for number in 0..sites {
            if !self.tell(SiteId(number)) {
                self.node.withdraw();
                return Err(SiteId(number));
            }
        }
        let Some(entry) = self.node.journal().last() else {
            unreachable!()
        };
        Ok(entry.outcome)
    }
}
