ghost use Rattle.std.specs.Prelude.{◌≡◌};
ghost use Rattle.dcr_lock.specs.Seats.{HasPlace, holding};

use crate::steps::{PlaceSeat, SharedPlaces};
use crate::waiters::Waiters;
use crate::{Held, Placed, seats};
use std::marker::Model;

/// The hold of a place without its value. It is not dropped: `join` makes it a `Held` again. Contracts
/// see the number of the place.
pub struct Grip<'a, T: Placed> {
    shared: &'a SharedPlaces<T>,
    waiters: &'a Waiters,
    seat: PlaceSeat<T>,
    place: u16,
}

impl<'a, T: Placed> Model for Grip<'a, T> {
    ghost use Rattle.std.specs.Prelude.{ℕ};

    ghost Value = { ℕ };

    ghost use Rattle.dcr_lock.specs.GripModel.{place_of, GripsPlace};

    ghost view = { place_of };

    ghost invariant = { GripsPlace };
}

impl<'a, T: Placed> Grip<'a, T> {
    /// Of a seat that holds the place, with the slot empty.
    pub(crate) fn new(
        shared: &'a SharedPlaces<T>,
        waiters: &'a Waiters,
        seat: PlaceSeat<T>,
        place: u16,
    ) -> Grip<'a, T>
        requires row { seat.table_id ≡ shared.now.table_id }
        requires place { HasPlace shared.now.table_id place }
        requires holds { seat.me ≡ holding place 0 }
        ensures { result ≡ place }
    {
        Grip {
            shared,
            waiters,
            seat,
            place,
        }
    }

    /// The place held with this value.
    pub fn join(self, value: T) -> Held<'a, T>
        ensures place { result.place ≡ self.entry }
        ensures value { result.value ≡ value }
    {
        Held::new(self, value)
    }

    /// Gives the place back with a value that belongs there, and wakes one thread that waits for it.
    pub(crate) fn put_back(self, value: T)
        requires { T.belongs self value }
    {
        let Grip {
            shared,
            waiters,
            mut seat,
            place,
        } = self;
        seats::put_back(shared, &mut seat, place, value);
        seats::wake(shared, waiters, place);
    }

    /// Leaves the place empty for ever.
    pub(crate) fn leave_empty(self) {
        let Grip {
            shared,
            waiters: _,
            mut seat,
            place,
        } = self;
        seats::leave_empty(shared, &mut seat, place);
    }
}
