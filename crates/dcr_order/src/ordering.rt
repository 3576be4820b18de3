use crate::PorterName;
use crate::place::Place;
use dcr_base::{Disk, Link};
use dcr_cell::StoreName;
use dcr_node::JournalNode;
use dcr_porter::Porter;
use dcr_tape::Store;
use dcr_turn::Keeps;
use std::marker::PhantomData;

/// What lies beside the turn's list under its lock: the journal apart, which makes the entries, a place for each site, the store of
/// the run, and the porter, which is handed back what stays of each link.
#[derive(Drop)]
pub struct Ordering<D, P: Porter, N> {
    pub(crate) node: JournalNode,
    pub(crate) places: Vec<Place<P::Link>>,
    pub(crate) store: Store<D>,
    pub(crate) porter: P,
    // How many links the porter has brought.
    pub(crate) given: u64,
    pub(crate) of: PhantomData<N>,
}

impl<D: Disk, P: Porter, N: StoreName<D> + PorterName<P::Link, <P::Link as Link>::Rest>> Keeps
    for Ordering<D, P, N> {
    ghost use Rattle.dcr_base.specs.Link.{links_of};
    ghost use Rattle.dcr_order.specs.Giving.{HasGiven};
    ghost use Rattle.dcr_order.specs.Orders.{IsOrdering};

    ghost stands = { λ J o. IsOrdering D.view D.faults (links_of P.Link.gives P.Link.takes P.Link.Rest.unread P.Link.Rest.sent) N.links N.back N.greets N.cluster N.turn N.first J o.node o.places.items (P.tells.back o.porter) o.store × HasGiven N.links o.given (P.tells.links o.porter) };
}

impl<D, P: Porter, N> Ordering<D, P, N> {
    ghost use Rattle.std.specs.Prelude.{◌≡◌};

    /// The store as it stands.
    pub fn store(&self) -> &Store<D>
        ensures { result.now ≡ self.now.store }
    {
        &self.store
    }
}
