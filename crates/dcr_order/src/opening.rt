ghost use Rattle.std.specs.Prelude.{◌≡◌, ◌+◌, ◌≤◌, ℕ, length, replicate, slice_get, true, Some, IfOk};
ghost use Rattle.dcr_journal.specs.declared.call.Outcome.TheVariants.{Done};
ghost use Rattle.dcr_node.specs.JournalState.{IsProposal, entry_of, execution, is_free, new_journal, with_entry};
ghost use Rattle.dcr_tape.specs.declared.entry.TapeEntry.{TapeEntry as Tapen};
ghost use Rattle.dcr_order.specs.Orders.{begun_of};
ghost use Rattle.dcr_order.specs.declared.place.Place.TheVariants.{Away};

use crate::PorterName;
use crate::ordering::Ordering;
use crate::place::Place;
use dcr_base::{Disk, Link};
use dcr_cell::StoreName;
use dcr_node::JournalNode;
use dcr_porter::Porter;
use dcr_proj::Network;
use dcr_set::{EventId, NoMemory, SiteId};
use dcr_site::Decision;
use dcr_tape::{Store, TapeEntry};
use dcr_wire::Message;
use std::alloc::Global;
use std::marker::PhantomData;

/// What lies under the lock of an order couldn't be made for want of memory. The store and the porter come back.
#[derive(Drop)]
pub struct Unbegun<D, P> {
    /// The store that was handed in.
    pub store: Store<D>,
    /// The porter that was handed in, which was asked nothing.
    pub porter: P,
}

impl<D: Disk, P: Porter, N: StoreName<D> + PorterName<P::Link, <P::Link as Link>::Rest>> Ordering<
    D,
    P,
    N,
> {
    ghost use Rattle.std.specs.Prelude.{◌≡◌, ◌≤◌, [], map, length, IfOk, IfErr};
    ghost use Rattle.dcr_base.specs.Link.{links_of};
    ghost use Rattle.dcr_cell.specs.ClusterId.{alphabet_of};
    ghost use Rattle.dcr_cell.specs.Stored.{StoreStands};
    ghost use Rattle.dcr_journal.specs.Run.{IsSound};
    ghost use Rattle.dcr_order.specs.Giving.{HasGiven};
    ghost use Rattle.dcr_order.specs.Orders.{IsNamedApart, IsOrdering, old_entries};

    /// What lies under the lock of an order that begins: no entry behind the executions from before, which are those of a session
    /// of their own, and every site away. The porter has brought no link. All memory that calls take is taken here. The network is
    /// that of the cover's sites, the sessions are 1,024 at most, and the executions from before 200,000 at most, each of which
    /// could be done at its place. It is refused for want of memory alone; the store and the porter come back as they were.
    pub fn begin(
        alloc: Global,
        network: &Network,
        sessions: u32,
        old: &[TapeEntry],
        store: Store<D>,
        porter: P,
    ) -> Result<Ordering<D, P, N>, Unbegun<D, P>>
        requires named { IsNamedApart N.cluster N.turn }
        requires network { network.now ≡ map (alphabet_of N.cluster) N.cluster.owned }
        requires sessions { sessions ≡ N.turn.sessions }
        requires old { old.now ≡ N.cluster.old }
        requires few { length old.now ≤ 200000 }
        requires sound { IsSound N.cluster.rules N.cluster.owned N.cluster.opening (old_entries N.turn.sessions N.cluster.old) }
        requires store { StoreStands D.view D.faults N.first N.cluster.old [] store }
        requires links { P.tells.links porter ≡ N.links }
        requires back { P.tells.back porter ≡ N.back }
        ensures stands { IfOk result (λ o. IsOrdering D.view D.faults (links_of P.Link.gives P.Link.takes P.Link.Rest.unread P.Link.Rest.sent) N.links N.back N.greets N.cluster N.turn N.first [] o.node o.places.items (P.tells.back o.porter) o.store) }
        ensures given { IfOk result (λ o. HasGiven N.links o.given (P.tells.links o.porter)) }
        ensures refused { IfErr result (λ refused. (refused.store ≡ store) × (refused.porter ≡ porter)) }
    {
        let sites = network.sites();
        let Ok(mut node) = JournalNode::open(alloc, network, sites, sessions + 1, 200_000) else {
            return Err(Unbegun { store, porter });
        };
        let Ok(places) = all_away(alloc, sites) else {
            return Err(Unbegun { store, porter });
        };
        enter_all(&mut node, sessions, old);
        Ok(Ordering {
            node,
            places,
            store,
            porter,
            given: 0,
            of: PhantomData,
        })
    }
}

// So many sites that are away.
fn all_away<L>(alloc: Global, sites: u16) -> Result<Vec<Place<L>>, NoMemory>
    ensures { IfOk result (λ places. places.items ≡ replicate sites Away) }
{
    let mut places = Vec::with_capacity(alloc, usize::from(sites))?;
    for _number in 0..sites {
        places.push_reserved(Place::Away);
    }
    Ok(places)
}

// Enters the executions from before as ones that a session made.
fn enter_all(node: &mut JournalNode, session: u32, old: &[TapeEntry])
    requires new { node.old ≡ new_journal node.old.alphabets (session + 1) 200000 }
    requires few { length old.now ≤ 200000 }
    requires possible { (k : ℕ) (x : Tapen) → slice_get old.now k ≡ Some x → IsProposal node.old (execution session x.site x.event) }
    ensures { node.new ≡ begun_of node.old.alphabets session old.now }
{
    for x in old {
        enter(node, session, x);
    }
}

// Enters an execution as one that a session made.
fn enter(node: &mut JournalNode, session: u32, x: &TapeEntry)
    requires free { is_free node.old ≡ true }
    requires possible { IsProposal node.old (execution session x.now.site x.now.event) }
    ensures { node.new ≡ with_entry node.old (entry_of node.old (execution session x.now.site x.now.event) Done) }
{
    let site = SiteId(x.site);
    node.propose(session, site, EventId(x.event));
    node.step(&Message::Vote {
        number: node.journal().len(),
        site,
        decision: Decision::Enabled,
    });
}
