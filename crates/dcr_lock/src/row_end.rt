ghost use Rattle.std.specs.Prelude.{◌≡◌, ◌+◌, ◌<◌, ◌≤◌};

use crate::steps::{PlaceSeat, PlaceTable, Sit};
use crate::waiters::Waiters;
use crate::{Placed, seats};
use std::marker::Model;
use std::sync::Wait;

/// A row that is being ended: `take` gives the value of each place, from 0 on, and `finish` ends it. It
/// is not dropped, since a value may be none that can be let go. Contracts see the number of places,
/// and how many have given their value.
pub struct RowEnd<T: Placed> {
    table: PlaceTable<T>,
    seat: PlaceSeat<T>,
    emptied: u16,
}

impl<T: Placed> Model for RowEnd<T> {
    ghost use Rattle.dcr_lock.specs.RowEndValue.{Emptying};

    ghost Value = { Emptying };

    ghost use Rattle.dcr_lock.specs.RowEndModel.{emptying_of, IsEmptying};

    ghost view = { emptying_of };

    ghost invariant = { IsEmptying };
}

impl<T: Placed> RowEnd<T> {
    /// Of a table with a word and a slot for each place.
    pub(crate) fn new(table: PlaceTable<T>) -> RowEnd<T>
        requires words { table.shared.table_id.words ≡ table.shared.table_id.slots }
        requires some { 0 < table.shared.table_id.slots }
        requires places { table.shared.table_id.slots ≤ 64 }
        ensures places { result.places ≡ table.shared.table_id.slots }
        ensures emptied { result.emptied ≡ 0 }
    {
        let (_, seat) = table.shared.load_new_seat::<Sit>(0);
        RowEnd {
            table,
            seat,
            emptied: 0,
        }
    }

    /// The value of the next place, which belongs there. Takes no memory. At a place that was kept, or
    /// whose hold was lost, it waits for ever.
    pub fn take<R: Wait>(&mut self, rt: &R) -> T
        requires { self.old.emptied < self.old.places }
        ensures belongs { T.belongs self.old.emptied result }
        ensures places { self.new.places ≡ self.old.places }
        ensures emptied { self.new.emptied ≡ self.old.emptied + 1 }
    {
        let place = self.emptied;
        let table = &self.table;
        let seat = &mut self.seat;
        // Nobody gives back a place of a row that is being ended, so nobody asks whether this thread waits.
        let waiters = Waiters::none();
        let value = seats::take(&table.shared, &waiters, rt, seat, place, &mut false);
        seats::leave_empty(&table.shared, seat, place);
        self.emptied += 1;
        value
    }

    /// Ends the row, whose values were all given.
    pub fn finish(self)
        requires { self.emptied ≡ self.places }
    {
        let RowEnd {
            table,
            seat,
            emptied: _,
        } = self;
        let mut closed = table.close_with(seat);
        let mut place = 0;
        while place < closed.slot_count() {
            let stood = closed.take(place);
            let None = stood else { unreachable!() };
            place += 1;
        }
        closed.free();
    }
}
