use crate::PorterName;
use crate::ordering::Ordering;
use dcr_base::{Disk, Link};
use dcr_cell::StoreName;
use dcr_porter::Porter;
use dcr_set::SiteId;
use dcr_wire::Asked;

impl<D: Disk, P: Porter, N: StoreName<D> + PorterName<P::Link, <P::Link as Link>::Rest>> Ordering<
    D,
    P,
    N,
> {
    ghost use Rattle.std.specs.Prelude.{◌≡◌, ◌≢◌, ◌<◌, ℕ, List, length, slice_get, true, false, Some, IfSome, IfNone};
    ghost use Rattle.dcr_base.specs.Link.{links_of};
    ghost use Rattle.dcr_journal.specs.declared.call.Entry.{Entry};
    ghost use Rattle.dcr_node.specs.declared.gathered.Gathered.{Gathered};
    ghost use Rattle.dcr_order.specs.Behind.{IsBehind};
    ghost use Rattle.dcr_order.specs.Orders.{IsNamedApart, IsOrdering};
    ghost use Rattle.dcr_order.specs.Tending.{AsksAtEnd, GathersFrom, HasMarks, HasTold, HasWaits, HaveTold, OnlyGathers, TellsMore};
    ghost use Rattle.dcr_order.specs.declared.place.Place.TheVariants.{Away};

    /// Asks the sites in order, each that hasn't told them, for its marks and for what it waits for after all entries, until one
    /// is away. That is the first that hasn't told; None where all have. Takes no memory.
    pub fn gather(&mut self) -> Option<SiteId>
        requires named { IsNamedApart N.cluster N.turn }
        requires stands { (J : List Entry) × IsOrdering D.view D.faults (links_of P.Link.gives P.Link.takes P.Link.Rest.unread P.Link.Rest.sent) N.links N.back N.greets N.cluster N.turn N.first J self.old.node self.old.places.items (P.tells.back self.old.porter) self.old.store }
        ensures stands { (J : List Entry) → IsOrdering D.view D.faults (links_of P.Link.gives P.Link.takes P.Link.Rest.unread P.Link.Rest.sent) N.links N.back N.greets N.cluster N.turn N.first J self.old.node self.old.places.items (P.tells.back self.old.porter) self.old.store → IsOrdering D.view D.faults (links_of P.Link.gives P.Link.takes P.Link.Rest.unread P.Link.Rest.sent) N.links N.back N.greets N.cluster N.turn N.first J self.new.node self.new.places.items (P.tells.back self.new.porter) self.new.store }
        ensures node { OnlyGathers self.old.node self.new.node }
        ensures all { IfNone result (HaveTold self.new.node (length N.cluster.owned)) }
        ensures before { IfSome result (HaveTold self.new.node) }
        ensures away { IfSome result (λ i. (i < length N.cluster.owned) × (slice_get self.new.places.items i ≡ Some Away)
            × ((g : Gathered) → slice_get self.new.node.gathered i ≡ Some g → HasTold g → ⊥)) }
        ensures behind { IsBehind (links_of P.Link.gives P.Link.takes P.Link.Rest.unread P.Link.Rest.sent) self.old.places.items (P.tells.back self.old.porter) self.new.places.items (P.tells.back self.new.porter) }
        ensures given { self.new.given ≡ self.old.given }
        ensures links { P.tells.links self.new.porter ≡ P.tells.links self.old.porter }
        ensures faults { P.tells.faults self.new.porter ≡ P.tells.faults self.old.porter }
    {
        let sites = self.places.len() as u16;
        for number in 0..sites {
            if !self.tells(SiteId(number)) {
                return Some(SiteId(number));
            }
        }
        None
    }

    // Whether a site has told its marks and what it waits for, which is asked what it hasn't told. Else it is away.
    fn tells(&mut self, i: SiteId) -> bool
        requires site { i < length N.cluster.owned }
        requires stands { (J : List Entry) × IsOrdering D.view D.faults (links_of P.Link.gives P.Link.takes P.Link.Rest.unread P.Link.Rest.sent) N.links N.back N.greets N.cluster N.turn N.first J self.old.node self.old.places.items (P.tells.back self.old.porter) self.old.store }
        ensures stands { (J : List Entry) → IsOrdering D.view D.faults (links_of P.Link.gives P.Link.takes P.Link.Rest.unread P.Link.Rest.sent) N.links N.back N.greets N.cluster N.turn N.first J self.old.node self.old.places.items (P.tells.back self.old.porter) self.old.store → IsOrdering D.view D.faults (links_of P.Link.gives P.Link.takes P.Link.Rest.unread P.Link.Rest.sent) N.links N.back N.greets N.cluster N.turn N.first J self.new.node self.new.places.items (P.tells.back self.new.porter) self.new.store }
        ensures more { TellsMore self.old.node self.new.node i }
        ensures told { result ≡ true → (g : Gathered) → slice_get self.new.node.gathered i ≡ Some g → HasTold g }
        ensures away { result ≡ false → (slice_get self.new.places.items i ≡ Some Away) × ((g : Gathered) → slice_get self.new.node.gathered i ≡ Some g → HasTold g → ⊥) }
        ensures behind { IsBehind (links_of P.Link.gives P.Link.takes P.Link.Rest.unread P.Link.Rest.sent) self.old.places.items (P.tells.back self.old.porter) self.new.places.items (P.tells.back self.new.porter) }
        ensures given { self.new.given ≡ self.old.given }
        ensures links { P.tells.links self.new.porter ≡ P.tells.links self.old.porter }
        ensures faults { P.tells.faults self.new.porter ≡ P.tells.faults self.old.porter }
    {
        if !self.tells_marks(i) {
            return false;
        }
        self.tells_waits(i)
    }

    // Whether a site has told its marks, which is asked where it hasn't.
    fn tells_marks(&mut self, i: SiteId) -> bool
        requires site { i < length N.cluster.owned }
        requires stands { (J : List Entry) × IsOrdering D.view D.faults (links_of P.Link.gives P.Link.takes P.Link.Rest.unread P.Link.Rest.sent) N.links N.back N.greets N.cluster N.turn N.first J self.old.node self.old.places.items (P.tells.back self.old.porter) self.old.store }
        ensures stands { (J : List Entry) → IsOrdering D.view D.faults (links_of P.Link.gives P.Link.takes P.Link.Rest.unread P.Link.Rest.sent) N.links N.back N.greets N.cluster N.turn N.first J self.old.node self.old.places.items (P.tells.back self.old.porter) self.old.store → IsOrdering D.view D.faults (links_of P.Link.gives P.Link.takes P.Link.Rest.unread P.Link.Rest.sent) N.links N.back N.greets N.cluster N.turn N.first J self.new.node self.new.places.items (P.tells.back self.new.porter) self.new.store }
        ensures more { TellsMore self.old.node self.new.node i }
        ensures told { result ≡ true → (g : Gathered) → slice_get self.new.node.gathered i ≡ Some g → HasMarks g }
        ensures away { result ≡ false → (slice_get self.new.places.items i ≡ Some Away) × ((g : Gathered) → slice_get self.new.node.gathered i ≡ Some g → HasMarks g → ⊥) }
        ensures behind { IsBehind (links_of P.Link.gives P.Link.takes P.Link.Rest.unread P.Link.Rest.sent) self.old.places.items (P.tells.back self.old.porter) self.new.places.items (P.tells.back self.new.porter) }
        ensures given { self.new.given ≡ self.old.given }
        ensures links { P.tells.links self.new.porter ≡ P.tells.links self.old.porter }
        ensures faults { P.tells.faults self.new.porter ≡ P.tells.faults self.old.porter }
    {
        if self.node.gathered(i).marks.is_some() {
            return true;
        }
        self.tell_end(i, Asked::Marks)
    }

    // Whether a site has told what it waits for, which is asked where it hasn't.
    fn tells_waits(&mut self, i: SiteId) -> bool
        requires site { i < length N.cluster.owned }
        requires stands { (J : List Entry) × IsOrdering D.view D.faults (links_of P.Link.gives P.Link.takes P.Link.Rest.unread P.Link.Rest.sent) N.links N.back N.greets N.cluster N.turn N.first J self.old.node self.old.places.items (P.tells.back self.old.porter) self.old.store }
        ensures stands { (J : List Entry) → IsOrdering D.view D.faults (links_of P.Link.gives P.Link.takes P.Link.Rest.unread P.Link.Rest.sent) N.links N.back N.greets N.cluster N.turn N.first J self.old.node self.old.places.items (P.tells.back self.old.porter) self.old.store → IsOrdering D.view D.faults (links_of P.Link.gives P.Link.takes P.Link.Rest.unread P.Link.Rest.sent) N.links N.back N.greets N.cluster N.turn N.first J self.new.node self.new.places.items (P.tells.back self.new.porter) self.new.store }
        ensures more { TellsMore self.old.node self.new.node i }
        ensures told { result ≡ true → (g : Gathered) → slice_get self.new.node.gathered i ≡ Some g → HasWaits g }
        ensures away { result ≡ false → (slice_get self.new.places.items i ≡ Some Away) × ((g : Gathered) → slice_get self.new.node.gathered i ≡ Some g → HasWaits g → ⊥) }
        ensures behind { IsBehind (links_of P.Link.gives P.Link.takes P.Link.Rest.unread P.Link.Rest.sent) self.old.places.items (P.tells.back self.old.porter) self.new.places.items (P.tells.back self.new.porter) }
        ensures given { self.new.given ≡ self.old.given }
        ensures links { P.tells.links self.new.porter ≡ P.tells.links self.old.porter }
        ensures faults { P.tells.faults self.new.porter ≡ P.tells.faults self.old.porter }
    {
        if self.node.gathered(i).waits.is_some() {
            return true;
        }
        self.tell_end(i, Asked::Waits)
    }

    /// Asks a site something at the end of its stream, with nothing out, and hands what it tells to the journal, which gathers it.
    /// False where the site is away then.
    pub(crate) fn tell_end(&mut self, i: SiteId, asked: Asked) -> bool
        requires site { i < length N.cluster.owned }
        requires stands { (J : List Entry) × IsOrdering D.view D.faults (links_of P.Link.gives P.Link.takes P.Link.Rest.unread P.Link.Rest.sent) N.links N.back N.greets N.cluster N.turn N.first J self.old.node self.old.places.items (P.tells.back self.old.porter) self.old.store }
        ensures stands { (J : List Entry) → IsOrdering D.view D.faults (links_of P.Link.gives P.Link.takes P.Link.Rest.unread P.Link.Rest.sent) N.links N.back N.greets N.cluster N.turn N.first J self.old.node self.old.places.items (P.tells.back self.old.porter) self.old.store → IsOrdering D.view D.faults (links_of P.Link.gives P.Link.takes P.Link.Rest.unread P.Link.Rest.sent) N.links N.back N.greets N.cluster N.turn N.first J self.new.node self.new.places.items (P.tells.back self.new.porter) self.new.store }
        ensures only { OnlyGathers self.old.node self.new.node }
        ensures told { result ≡ true → GathersFrom self.old.node self.new.node i asked }
        ensures away { result ≡ false → (self.new.node ≡ self.old.node) × (slice_get self.new.places.items i ≡ Some Away) }
        ensures asked { AsksAtEnd (links_of P.Link.gives P.Link.takes P.Link.Rest.unread P.Link.Rest.sent) self.old.node i asked self.old.places.items self.new.places.items (P.tells.back self.old.porter) (P.tells.back self.new.porter) }
        ensures given { self.new.given ≡ self.old.given }
        ensures links { P.tells.links self.new.porter ≡ P.tells.links self.old.porter }
        ensures faults { P.tells.faults self.new.porter ≡ P.tells.faults self.old.porter }
    {
        let question = self.node.question(i, asked);
        let Some(answer) = self.answer(i, &question) else {
            return false;
        };
        self.node.hear(&answer);
        true
    }
}
