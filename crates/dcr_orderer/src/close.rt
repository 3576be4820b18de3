ghost use Rattle.std.specs.Prelude.{◌≡◌, ◌<◌};
ghost use Rattle.std.specs.List.{All};
ghost use Rattle.dcr_base.specs.Link.{links_of};
ghost use Rattle.dcr_journal.specs.declared.call.Entry.{Entry};
ghost use Rattle.dcr_turn.specs.PassValue.{HasMadeAll};
ghost use Rattle.dcr_order.specs.Giving.{HasGiven};
ghost use Rattle.dcr_order.specs.Orders.{IsOrdering};

use crate::Orderer;
use dcr_base::{Disk, Link};
use dcr_cell::StoreName;
use dcr_journal::Journal;
use dcr_order::{Ordering, PorterName};
use dcr_porter::Porter;
use dcr_turn::Pass;
use std::alloc::Global;
use std::sync::Wait;

impl<D: Disk, P: Porter, N: StoreName<D> + PorterName<P::Link, <P::Link as Link>::Rest>> Orderer<
    D,
    P,
    N,
> {
    /// Waits until the lock is free, and ends the calls, whose passes are handed in: the one journal, and what lay under the lock,
    /// which stands for it. A pass's entries there are those that it made, and no other session has one. The sites may still be
    /// asked for their ends. Takes no memory.
    pub fn close<R: Wait>(
        self,
        rt: &R,
        alloc: Global,
        passes: Vec<Pass<N>>,
    ) -> (Journal, Ordering<D, P, N>)
        ensures passes { All (λ pass. HasMadeAll pass result.0.entries) passes.items }
        ensures sessions { All (λ (entry : Entry). entry.session < N.turn.sessions) result.0.entries }
        ensures capacity { result.0.capacity ≡ N.capacity }
        ensures stands { IsOrdering D.view D.faults (links_of P.Link.gives P.Link.takes P.Link.Rest.unread P.Link.Rest.sent) N.links N.back N.greets N.cluster N.turn N.first result.0.entries result.1.node result.1.places.items (P.tells.back result.1.porter) result.1.store }
        ensures given { HasGiven N.links result.1.given (P.tells.links result.1.porter) }
    {
        let Orderer { turn } = self;
        turn.close(rt, Vec::new(alloc), passes)
    }
}
