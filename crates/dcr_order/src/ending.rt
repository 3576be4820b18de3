use crate::ordering::Ordering;
use crate::place::Place;
use dcr_base::Link;
use dcr_porter::Porter;
use dcr_seat::Seat;
use dcr_set::SiteId;
use std::mem;

impl<D, P: Porter, N> Ordering<D, P, N> {
    ghost use Rattle.std.specs.Prelude.{◌≡◌, ◌<◌, length};
    ghost use Rattle.dcr_base.specs.Link.{links_of};
    ghost use Rattle.dcr_order.specs.Going.{Ends};

    /// Ends the link of a site, where it has one, and hands back what stays of it. The site is away then.
    pub(crate) fn end(&mut self, i: SiteId)
        requires { i < length self.old.places.items }
        ensures node { self.new.node ≡ self.old.node }
        ensures store { self.new.store ≡ self.old.store }
        ensures many { length self.new.places.items ≡ length self.old.places.items }
        ensures given { self.new.given ≡ self.old.given }
        ensures links { P.tells.links self.new.porter ≡ P.tells.links self.old.porter }
        ensures faults { P.tells.faults self.new.porter ≡ P.tells.faults self.old.porter }
        ensures ended { Ends (links_of P.Link.gives P.Link.takes P.Link.Rest.unread P.Link.Rest.sent) i self.old.places.items self.new.places.items
            (P.tells.back self.old.porter) (P.tells.back self.new.porter) }
    {
        let old = mem::replace(&mut self.places[usize::from(i.0)], Place::Away);
        match old {
            Place::Away => {}
            Place::Here(seat) => {
                let Seat {
                    link,
                    number,
                    told: _,
                } = seat;
                self.porter.take_back(number, link.finish());
            }
        }
    }
}
