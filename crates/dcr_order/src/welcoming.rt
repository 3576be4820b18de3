use crate::PorterName;
use crate::guest::Guest;
use crate::ordering::Ordering;
use dcr_base::{Disk, Failed, Link};
use dcr_cell::StoreName;
use dcr_porter::{Brought, Porter};

impl<D: Disk, P: Porter, N: StoreName<D> + PorterName<P::Link, <P::Link as Link>::Rest>> Ordering<
    D,
    P,
    N,
> {
    ghost use Rattle.std.specs.Prelude.{◌≡◌, List, Ok};
    ghost use Rattle.dcr_base.specs.Count.{CountsFault};
    ghost use Rattle.dcr_base.specs.Link.{links_of};
    ghost use Rattle.dcr_journal.specs.declared.call.Entry.{Entry};
    ghost use Rattle.dcr_porter.specs.declared.brought.Brought.TheVariants.{Shut};
    ghost use Rattle.dcr_order.specs.Giving.{HasGiven};
    ghost use Rattle.dcr_order.specs.Orders.{IsOrdering};
    ghost use Rattle.dcr_order.specs.Tending.{IsFreshGuest, IsNumbered, TakesBack};

    /// Asks the porter once for the next link, which comes with its number; or the porter says that nobody is there now, or that
    /// it is shut. Behind 2^64 - 1 links nobody is there any more, and the porter isn't asked. `Failed` comes where the porter
    /// fails; nothing is lost by it. Who comes is nobody until it has greeted: it is seated then, or handed back by `turn_away`.
    /// Takes no memory.
    pub fn welcome(&mut self) -> Result<Brought<Guest<P::Link>>, Failed>
        requires given { HasGiven N.links self.old.given (P.tells.links self.old.porter) }
        ensures node { self.new.node ≡ self.old.node }
        ensures store { self.new.store ≡ self.old.store }
        ensures places { self.new.places ≡ self.old.places }
        ensures back { P.tells.back self.new.porter ≡ P.tells.back self.old.porter }
        ensures given { HasGiven N.links self.new.given (P.tells.links self.new.porter) }
        ensures numbered { IsNumbered N.links result }
        ensures fresh { IsFreshGuest (links_of P.Link.gives P.Link.takes P.Link.Rest.unread P.Link.Rest.sent) result }
        ensures shuts { result ≡ Ok Shut → P.tells.is_shut self.new.porter }
        ensures counts { CountsFault result (P.tells.faults self.old.porter) (P.tells.faults self.new.porter) }
    {
        if self.given == u64::MAX {
            return Ok(Brought::Nobody);
        }
        match self.porter.next() {
            Err(failed) => Err(failed),
            Ok(Brought::Nobody) => Ok(Brought::Nobody),
            Ok(Brought::Shut) => Ok(Brought::Shut),
            Ok(Brought::Link(link)) => {
                let number = self.given;
                self.given = number + 1;
                Ok(Brought::Link(Guest { link, number }))
            }
        }
    }

    /// Hands back what stays of a link that was brought and is not seated. Takes no memory.
    pub fn turn_away(&mut self, guest: Guest<P::Link>)
        ensures stands { (J : List Entry) → IsOrdering D.view D.faults (links_of P.Link.gives P.Link.takes P.Link.Rest.unread P.Link.Rest.sent) N.links N.back N.greets N.cluster N.turn N.first J self.old.node self.old.places.items (P.tells.back self.old.porter) self.old.store → IsOrdering D.view D.faults (links_of P.Link.gives P.Link.takes P.Link.Rest.unread P.Link.Rest.sent) N.links N.back N.greets N.cluster N.turn N.first J self.new.node self.new.places.items (P.tells.back self.new.porter) self.new.store }
        ensures node { self.new.node ≡ self.old.node }
        ensures places { self.new.places ≡ self.old.places }
        ensures given { self.new.given ≡ self.old.given }
        ensures links { P.tells.links self.new.porter ≡ P.tells.links self.old.porter }
        ensures faults { P.tells.faults self.new.porter ≡ P.tells.faults self.old.porter }
        ensures taken { TakesBack (links_of P.Link.gives P.Link.takes P.Link.Rest.unread P.Link.Rest.sent) guest (P.tells.back self.old.porter) (P.tells.back self.new.porter) }
    {
        let Guest { link, number } = guest;
        self.porter.take_back(number, link.finish());
    }
}
