//! The table of a row, and the kinds of step on it.
use crate::Placed;
use atomic_table::{Play, Seat, Shared, Table, TableRule};
use std::alloc::Global;
use std::collections::LinkedList;
use std::marker::PhantomData;

/// The word of a place: its value stands in its slot.
pub(crate) const FREE: u64 = 0;

/// Its slot is with the one seat that holds the place.
pub(crate) const TAKEN: u64 = 1;

/// Its slot is empty.
pub(crate) const EMPTY: u64 = 2;

/// How many places a row may have.
pub(crate) const MOST_PLACES: usize = 64;

/// What a seat knows: the places that it holds, and that all places below a number are empty. No value
/// of it is made.
pub struct SeatView {
    pub held: LinkedList<u16>,
    pub empty: u16,
}

/// The rule of a row's table. No value of it is made.
pub struct KeepsPlaces<T> {
    of: PhantomData<T>,
}

impl<T: Placed> TableRule<Option<T>, SeatView, u16> for KeepsPlaces<T> {
    ghost use Rattle.std.specs.Prelude.{[]};
    ghost use Rattle.dcr_lock.specs.Rule.{AreKept, knows};

    ghost holds = { λ _. AreKept T.belongs };

    ghost first = { knows [] };
}

/// One word and one slot for each place. It is told the number of places.
pub type PlaceTable<T> = Table<Option<T>, SeatView, u16, KeepsPlaces<T>, Global>;

/// That table, as threads see it.
pub type SharedPlaces<T> = Shared<Option<T>, SeatView, u16, KeepsPlaces<T>>;

/// What steps on it.
pub type PlaceSeat<T> = Seat<Option<T>, SeatView>;

/// New seat: one load.
pub struct Sit;

impl<T> Play<Option<T>, SeatView> for Sit {
    ghost use Rattle.dcr_lock.specs.Steps.{Sits};

    ghost then = { Sits };
}

/// Fill: the word goes from 2 to 1.
pub struct Fill;

impl<T> Play<Option<T>, SeatView> for Fill {
    ghost use Rattle.dcr_lock.specs.Steps.{Fills};

    ghost then = { Fills };
}

/// Take, where the exchange from 0 to 1 wins, and miss, where it loses.
pub struct Take;

impl<T: Placed> Play<Option<T>, SeatView> for Take {
    ghost use Rattle.dcr_lock.specs.Steps.{TakesOrMisses};

    ghost then = { TakesOrMisses T.belongs };
}

/// Give back: the word goes from 1 to 0, with a value, or to 2, with none.
pub struct GiveBack;

impl<T> Play<Option<T>, SeatView> for GiveBack {
    ghost use Rattle.dcr_lock.specs.Steps.{GivesBack};

    ghost then = { GivesBack };
}
