use crate::PorterName;
use crate::ordering::Ordering;
use crate::place::Place;
use dcr_base::{Disk, Link};
use dcr_cell::StoreName;
use dcr_porter::Porter;
use dcr_set::SiteId;

impl<D: Disk, P: Porter, N: StoreName<D> + PorterName<P::Link, <P::Link as Link>::Rest>> Ordering<
    D,
    P,
    N,
> {
    ghost use Rattle.std.specs.Prelude.{◌≡◌, ◌<◌, List, length, true, false};
    ghost use Rattle.dcr_order.specs.Linked.{HaveRoomToTell};
    ghost use Rattle.dcr_base.specs.Link.{links_of};
    ghost use Rattle.dcr_journal.specs.declared.call.Entry.{Entry};
    ghost use Rattle.dcr_order.specs.Orders.{IsOrdering};
    ghost use Rattle.dcr_order.specs.Tending.{IsLate, Tells};

    /// Tells a site the next executions of its stream by one write of at most 4,096 bytes, where it has a link and wasn't told
    /// all; a link that fails is ended. Whether there is still something to be told. Takes no memory.
    pub fn send_some(&mut self, i: SiteId) -> bool
        requires site { i < length N.cluster.owned }
        requires stands { (J : List Entry) × IsOrdering D.view D.faults (links_of P.Link.gives P.Link.takes P.Link.Rest.unread P.Link.Rest.sent) N.links N.back N.greets N.cluster N.turn N.first J self.old.node self.old.places.items (P.tells.back self.old.porter) self.old.store }
        ensures stands { (J : List Entry) → IsOrdering D.view D.faults (links_of P.Link.gives P.Link.takes P.Link.Rest.unread P.Link.Rest.sent) N.links N.back N.greets N.cluster N.turn N.first J self.old.node self.old.places.items (P.tells.back self.old.porter) self.old.store → IsOrdering D.view D.faults (links_of P.Link.gives P.Link.takes P.Link.Rest.unread P.Link.Rest.sent) N.links N.back N.greets N.cluster N.turn N.first J self.new.node self.new.places.items (P.tells.back self.new.porter) self.new.store }
        ensures node { self.new.node ≡ self.old.node }
        ensures tells { Tells (links_of P.Link.gives P.Link.takes P.Link.Rest.unread P.Link.Rest.sent) self.old.node i self.old.places.items self.new.places.items (P.tells.back self.old.porter) (P.tells.back self.new.porter) }
        ensures more { result ≡ true → IsLate self.new.node i self.new.places.items }
        ensures all { result ≡ false → IsLate self.new.node i self.new.places.items → ⊥ }
        ensures given { self.new.given ≡ self.old.given }
        ensures links { P.tells.links self.new.porter ≡ P.tells.links self.old.porter }
        ensures faults { P.tells.faults self.new.porter ≡ P.tells.faults self.old.porter }
    {
        if !self.is_late(i) {
            return false;
        }
        self.send(i);
        self.is_late(i)
    }

    // Tells a site that wasn't told all of its stream the next executions by one write. A link that fails is ended.
    fn send(&mut self, i: SiteId)
        requires site { i < length self.old.node.alphabets }
        requires places { HaveRoomToTell self.old.node self.old.places.items }
        requires late { IsLate self.old.node i self.old.places.items }
        ensures node { self.new.node ≡ self.old.node }
        ensures store { self.new.store ≡ self.old.store }
        ensures many { length self.new.places.items ≡ length self.old.places.items }
        ensures tells { Tells (links_of P.Link.gives P.Link.takes P.Link.Rest.unread P.Link.Rest.sent) self.old.node i self.old.places.items self.new.places.items (P.tells.back self.old.porter) (P.tells.back self.new.porter) }
        ensures given { self.new.given ≡ self.old.given }
        ensures links { P.tells.links self.new.porter ≡ P.tells.links self.old.porter }
        ensures faults { P.tells.faults self.new.porter ≡ P.tells.faults self.old.porter }
    {
        let node = &self.node;
        let sent = match &mut self.places[usize::from(i.0)] {
            Place::Away => true,
            Place::Here(seat) => seat.send_some(node, i),
        };
        if !sent {
            self.end(i);
        }
    }

    // Whether the site has a link and wasn't told all of its stream.
    fn is_late(&self, i: SiteId) -> bool
        requires place { i < length self.now.places.items }
        requires site { i < length self.now.node.alphabets }
        ensures late { result ≡ true → IsLate self.now.node i self.now.places.items }
        ensures told { result ≡ false → IsLate self.now.node i self.now.places.items → ⊥ }
    {
        match &self.places[usize::from(i.0)] {
            Place::Away => false,
            Place::Here(seat) => seat.told < self.node.stream_len(i),
        }
    }
}
