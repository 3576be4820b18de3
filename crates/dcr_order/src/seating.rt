use crate::PorterName;
use crate::guest::Guest;
use crate::ordering::Ordering;
use crate::place::Place;
use dcr_base::{Disk, Link};
use dcr_cell::StoreName;
use dcr_porter::Porter;
use dcr_seat::Seat;
use dcr_set::SiteId;
use dcr_wire::Asked;
use std::mem;

impl<D: Disk, P: Porter, N: StoreName<D> + PorterName<P::Link, <P::Link as Link>::Rest>> Ordering<
    D,
    P,
    N,
> {
    ghost use Rattle.std.specs.Prelude.{◌≡◌, ◌<◌, [], List, Some, length, slice_get, slice_set, true, false};
    ghost use Rattle.dcr_order.specs.declared.place.Place.TheVariants.{Away, Here};
    ghost use Rattle.dcr_base.specs.Link.{links_of};
    ghost use Rattle.dcr_journal.specs.declared.call.Entry.{Entry};
    ghost use Rattle.dcr_seat.specs.Exchange.{Talk};
    ghost use Rattle.dcr_order.specs.Orders.{IsOrdering};
    ghost use Rattle.dcr_order.specs.Tending.{IsHere, OnlyGathers, Seats, TurnsAway};

    /// Gives a link that has greeted as this site the site's place, where the site is away. Where it has a link already, that is
    /// asked what the site waits for, so that it is ended where nobody answers, and the new one is handed back: then the site
    /// gets in when it comes again. Whether it was seated. Takes no memory.
    pub fn seat(&mut self, i: SiteId, guest: Guest<P::Link>) -> bool
        requires site { i < length N.cluster.owned }
        requires greeted { Talk (links_of P.Link.gives P.Link.takes P.Link.Rest.unread P.Link.Rest.sent) N.links N.greets guest.number i [] [] [] [] (P.Link.gives guest.link) (P.Link.takes guest.link) }
        requires stands { (J : List Entry) × IsOrdering D.view D.faults (links_of P.Link.gives P.Link.takes P.Link.Rest.unread P.Link.Rest.sent) N.links N.back N.greets N.cluster N.turn N.first J self.old.node self.old.places.items (P.tells.back self.old.porter) self.old.store }
        ensures stands { (J : List Entry) → IsOrdering D.view D.faults (links_of P.Link.gives P.Link.takes P.Link.Rest.unread P.Link.Rest.sent) N.links N.back N.greets N.cluster N.turn N.first J self.old.node self.old.places.items (P.tells.back self.old.porter) self.old.store → IsOrdering D.view D.faults (links_of P.Link.gives P.Link.takes P.Link.Rest.unread P.Link.Rest.sent) N.links N.back N.greets N.cluster N.turn N.first J self.new.node self.new.places.items (P.tells.back self.new.porter) self.new.store }
        ensures node { OnlyGathers self.old.node self.new.node }
        ensures seated { result ≡ true → Seats i guest self.old.places.items self.new.places.items × (P.tells.back self.new.porter ≡ P.tells.back self.old.porter) }
        ensures turned_away { result ≡ false → TurnsAway (links_of P.Link.gives P.Link.takes P.Link.Rest.unread P.Link.Rest.sent) self.old.node i guest self.old.places.items self.new.places.items (P.tells.back self.old.porter) (P.tells.back self.new.porter) }
        ensures given { self.new.given ≡ self.old.given }
        ensures links { P.tells.links self.new.porter ≡ P.tells.links self.old.porter }
        ensures faults { P.tells.faults self.new.porter ≡ P.tells.faults self.old.porter }
    {
        if self.is_here(i) {
            self.tell_end(i, Asked::Waits);
            self.turn_away(guest);
            return false;
        }
        let Guest { link, number } = guest;
        let seat = Seat {
            link,
            number,
            told: 0,
        };
        self.put(i, seat);
        self.porter.seated(number, i);
        true
    }

    // Gives the site, which is away, this link.
    fn put(&mut self, i: SiteId, seat: Seat<P::Link>)
        requires { slice_get self.old.places.items i ≡ Some Away }
        ensures node { self.new.node ≡ self.old.node }
        ensures store { self.new.store ≡ self.old.store }
        ensures porter { self.new.porter ≡ self.old.porter }
        ensures given { self.new.given ≡ self.old.given }
        ensures places { self.new.places.items ≡ slice_set self.old.places.items i (Here seat) }
    {
        let old = mem::replace(&mut self.places[usize::from(i.0)], Place::Here(seat));
        let Place::Away = old else { unreachable!() };
    }

    // Whether the site has a link.
    fn is_here(&self, i: SiteId) -> bool
        requires { i < length self.now.places.items }
        ensures here { result ≡ true → IsHere i self.now.places.items }
        ensures away { result ≡ false → slice_get self.now.places.items i ≡ Some Away }
    {
        match &self.places[usize::from(i.0)] {
            Place::Away => false,
            Place::Here(_) => true,
        }
    }
}
