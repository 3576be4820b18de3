ghost use Rattle.std.specs.Prelude.{◌≡◌, ◌≤◌, [], length, map, vec_capacity, Some};
ghost use Rattle.dcr_node.specs.declared.gathered.Gathered.{Gathered};
ghost use Rattle.dcr_order.specs.Tending.{HaveTold};

use crate::PorterName;
use crate::ordering::Ordering;
use dcr_base::{Disk, Link};
use dcr_cell::StoreName;
use dcr_graph::SiteMark;
use dcr_journal::MarkList;
use dcr_node::JournalNode;
use dcr_porter::Porter;
use dcr_set::{EventId, SiteId};
use dcr_tape::Store;

/// What comes back of an order that was closed: what the sites told at the end, the store and the porter.
#[derive(Drop)]
pub struct Ended<D, P> {
    /// The marks of each site, in order.
    pub marks: MarkList,
    /// The least event that a site waits for. None where none waits for one.
    pub waits: Option<EventId>,
    /// The store, which has the executions that were kept.
    pub store: Store<D>,
    /// The porter, which has been handed back what stays of each link that had a place.
    pub porter: P,
}

impl<
    D: Disk,
    P: Porter<Link: Drop>,
    N: StoreName<D> + PorterName<P::Link, <P::Link as Link>::Rest>,
> Ordering<D, P, N> {
    ghost use Rattle.std.specs.Prelude.{◌≡◌, ◌<◌, ◌≤◌, ℕ, [], List, length, map, replicate, vec_capacity, Some};
    ghost use Rattle.std.specs.List.{All};
    ghost use Rattle.dcr_talk.specs.Speaks.{AllSpeak};
    ghost use Rattle.dcr_order.specs.Linked.{CameBack};
    ghost use Rattle.dcr_base.specs.Link.{links_of};
    ghost use Rattle.dcr_journal.specs.declared.call.Entry.{Entry};
    ghost use Rattle.dcr_node.specs.Gathering.{waits_told};
    ghost use Rattle.dcr_node.specs.declared.gathered.Gathered.{Gathered};
    ghost use Rattle.dcr_order.specs.Behind.{IsBehind};
    ghost use Rattle.dcr_order.specs.Orders.{IsNamedApart, IsOrdering};
    ghost use Rattle.dcr_order.specs.Tending.{EndsAsTheGraph, HaveTold};
    ghost use Rattle.dcr_order.specs.declared.place.Place.TheVariants.{Away};

    /// Ends the links of all sites, which have told their ends, and hands back what stays of them. The marks go into a list that
    /// has room for them. Takes no memory.
    pub fn finish(self, room: Vec<SiteMark>) -> Ended<D, P>
        requires named { IsNamedApart N.cluster N.turn }
        requires told { HaveTold self.node (length N.cluster.owned) }
        requires empty { room.items ≡ [] }
        requires room { length N.cluster.owned ≤ vec_capacity room }
        requires stands { (J : List Entry) × IsOrdering D.view D.faults (links_of P.Link.gives P.Link.takes P.Link.Rest.unread P.Link.Rest.sent) N.links N.back N.greets N.cluster N.turn N.first J self.node self.places.items (P.tells.back self.porter) self.store }
        ensures stands { (J : List Entry) → IsOrdering D.view D.faults (links_of P.Link.gives P.Link.takes P.Link.Rest.unread P.Link.Rest.sent) N.links N.back N.greets N.cluster N.turn N.first J self.node self.places.items (P.tells.back self.porter) self.store
            → IsOrdering D.view D.faults (links_of P.Link.gives P.Link.takes P.Link.Rest.unread P.Link.Rest.sent) N.links N.back N.greets N.cluster N.turn N.first J self.node (replicate (length N.cluster.owned) Away) (P.tells.back result.porter) result.store }
        ensures behind { IsBehind (links_of P.Link.gives P.Link.takes P.Link.Rest.unread P.Link.Rest.sent) self.places.items (P.tells.back self.porter) (replicate (length N.cluster.owned) Away) (P.tells.back result.porter) }
        ensures marks { map Some result.marks ≡ map (λ (g : Gathered). g.marks) self.node.gathered }
        ensures waits { Some result.waits ≡ waits_told self.node.gathered }
        ensures graph { (J : List Entry) (since : List (ℕ × P.Link.Rest)) → IsOrdering D.view D.faults (links_of P.Link.gives P.Link.takes P.Link.Rest.unread P.Link.Rest.sent) N.links N.back N.greets N.cluster N.turn N.first J self.node self.places.items (P.tells.back self.porter) self.store
            → All (λ (entry : Entry). entry.session < N.turn.sessions) J → CameBack (links_of P.Link.gives P.Link.takes P.Link.Rest.unread P.Link.Rest.sent) N.links N.back N.greets N.cluster (P.tells.back result.porter) since
            → AllSpeak (links_of P.Link.gives P.Link.takes P.Link.Rest.unread P.Link.Rest.sent) N.links N.greets N.cluster.rules N.cluster.owned N.cluster.opening since → EndsAsTheGraph N.cluster J result.marks result.waits }
        ensures links { P.tells.links result.porter ≡ P.tells.links self.porter }
        ensures faults { P.tells.faults result.porter ≡ P.tells.faults self.porter }
    {
        let mut ordering = self;
        let sites = ordering.places.len() as u16;
        ordering.end_all();
        let Ordering {
            node,
            places: _,
            store,
            porter,
            given: _,
            of: _,
        } = ordering;
        let Some(waits) = node.waits_told() else {
            unreachable!()
        };
        Ended {
            marks: marks_told(&node, sites, room),
            waits,
            store,
            porter,
        }
    }

    // Ends the links of all sites.
    fn end_all(&mut self)
        requires many { length self.old.places.items ≡ length N.cluster.owned }
        requires most { length N.cluster.owned ≤ 64 }
        ensures node { self.new.node ≡ self.old.node }
        ensures store { self.new.store ≡ self.old.store }
        ensures away { self.new.places.items ≡ replicate (length N.cluster.owned) Away }
        ensures behind { IsBehind (links_of P.Link.gives P.Link.takes P.Link.Rest.unread P.Link.Rest.sent) self.old.places.items (P.tells.back self.old.porter) self.new.places.items (P.tells.back self.new.porter) }
        ensures given { self.new.given ≡ self.old.given }
        ensures links { P.tells.links self.new.porter ≡ P.tells.links self.old.porter }
        ensures faults { P.tells.faults self.new.porter ≡ P.tells.faults self.old.porter }
    {
        let sites = self.places.len() as u16;
        for number in 0..sites {
            self.end(SiteId(number));
        }
    }
}

// The marks that the sites told, which have told them, in a list that has room for them.
fn marks_told(node: &JournalNode, sites: u16, mut marks: Vec<SiteMark>) -> MarkList
    requires told { HaveTold node.now sites }
    requires sites { sites ≡ length node.now.alphabets }
    requires gathered { sites ≡ length node.now.gathered }
    requires empty { marks.items ≡ [] }
    requires room { sites ≤ vec_capacity marks }
    ensures { map Some result ≡ map (λ (g : Gathered). g.marks) node.now.gathered }
{
    for number in 0..sites {
        let Some(mark) = &node.gathered(SiteId(number)).marks else {
            unreachable!()
        };
        marks.push_reserved(mark.copy());
    }
    MarkList::new(marks)
}
