ghost use Rattle.std.specs.Prelude.{◌≡◌, ◌<◌, ◌≤◌, IfOk, IfErr, vec_len};
ghost use Rattle.std.specs.Fn.{FnOnceReturnsAtMut};
ghost use Rattle.dcr_lock.specs.Placing.{StandInPlace, ChangesWithin, HasChanged};
ghost use Rattle.dcr_lock.specs.Seats.{idle};

use crate::steps::{EMPTY, Fill, MOST_PLACES, PlaceSeat, PlaceTable, SharedPlaces, Sit, TAKEN};
use crate::waiters::Waiters;
use crate::{Grip, Held, Placed, RowEnd, seats};
use atomic_table::Table;
use dcr_set::NoMemory;
use std::alloc::Global;
use std::array;
use std::marker::Model;
use std::sync::Wait;

/// A row of places, numbered from 0, each with a lock of its own. What stands at a place belongs there,
/// whenever its lock is free. Threads share it by reference. Contracts see the number of its places.
#[derive(Drop)]
pub struct Row<T: Placed> {
    table: PlaceTable<T>,
    // Those of each place, and of none beyond.
    waiters: [Waiters; MOST_PLACES],
}

impl<T: Placed> Model for Row<T> {
    ghost use Rattle.std.specs.Prelude.{ℕ};

    ghost Value = { ℕ };

    ghost use Rattle.dcr_lock.specs.RowModel.{places_of, HasPlaces};

    ghost view = { places_of };

    ghost invariant = { HasPlaces };
}

/// There was no memory for the row. The values come back as they were.
#[derive(Drop)]
pub struct RowRefused<T> {
    pub values: Vec<T>,
}

impl<T: Drop> From<RowRefused<T>> for NoMemory {
    fn from(_: RowRefused<T>) -> NoMemory {
        NoMemory
    }
}

impl<T: Placed> Row<T> {
    /// A row of these values, 1 to 64 of them, each at the place of its number. It is refused for want
    /// of memory alone.
    pub fn open(alloc: Global, values: Vec<T>) -> Result<Row<T>, RowRefused<T>>
        requires count { (0 < vec_len values) × (vec_len values ≤ 64) }
        requires belong { StandInPlace T.belongs values.items }
        ensures places { IfOk result (λ row. row ≡ vec_len values) }
        ensures refused { IfErr result (λ refused. refused.values.items ≡ values.items) }
    {
        let count = values.len();
        let words = [EMPTY; MOST_PLACES];
        let opened = Table::vacant(alloc, &words[..count], count, &(count as u16));
        let Ok((table, seat)) = opened else {
            return Err(RowRefused { values });
        };
        fill(&table.shared, seat, values);
        let waiters = array::from_fn(|_| Waiters::none());
        Ok(Row { table, waiters })
    }

    /// How many places there are.
    pub fn places(&self) -> u16
        ensures { result ≡ self.now }
    {
        self.table.slot_count() as u16
    }

    /// Waits until the place is free, and holds it. What is held belongs there. Takes no memory. At a
    /// place that was kept it waits for ever.
    pub fn lock<R: Wait>(&self, rt: &R, place: u16) -> Held<'_, T>
        requires { place < self.now }
        ensures place { result.place ≡ place }
        ensures belongs { T.belongs place result.value }
    {
        self.lock_noting(rt, place, &mut false)
    }

    /// As `lock`. Where the place was not free at once, `waited` becomes true: it says something of speed alone.
    pub fn lock_noting<R: Wait>(&self, rt: &R, place: u16, waited: &mut bool) -> Held<'_, T>
        requires { place < self.now }
        ensures place { result.place ≡ place }
        ensures belongs { T.belongs place result.value }
    {
        let shared = &self.table.shared;
        let (_, mut seat) = shared.load_new_seat::<Sit>(place as usize);
        let waiters = &self.waiters[place as usize];
        let value = seats::take(shared, waiters, rt, &mut seat, place, waited);
        Grip::new(shared, waiters, seat, place).join(value)
    }

    /// Waits until the place is free, and changes its value under the lock. `change` is handed a value
    /// that belongs there, and must leave one that does. Takes no memory of its own.
    pub fn change<R: Wait, X, F: FnOnce(&mut T) -> X>(&self, rt: &R, place: u16, change: F) -> X
        requires place { place < self.now }
        requires callable { F.IsAlwaysCallable change }
        requires belongs { ChangesWithin (T.belongs place) (FnOnceReturnsAtMut F.FnOnce change) }
        ensures { HasChanged (T.belongs place) (FnOnceReturnsAtMut F.FnOnce change) result }
    {
        let mut held = self.lock(rt, place);
        let answer = change(held.value());
        held.unlock();
        answer
    }

    /// Ends the row, for its values to be taken out one after the other.
    pub fn close(self) -> RowEnd<T>
        ensures places { result.places ≡ self }
        ensures emptied { result.emptied ≡ 0 }
    {
        let Row { table, waiters: _ } = self;
        RowEnd::new(table)
    }
}

// Gives each value to the place of its number, from the last one down. The seat knows at the start that
// all places are empty, and at the end it holds none.
fn fill<T: Placed>(
    shared: &SharedPlaces<T>,
    mut seat: PlaceSeat<T>,
    mut values: Vec<T>,
) -> PlaceSeat<T>
    requires row { seat.table_id ≡ shared.now.table_id }
    requires places { (shared.now.table_id.words ≡ vec_len values) × (shared.now.table_id.slots ≡ vec_len values) × (vec_len values ≤ 64) }
    requires empty { seat.me ≡ idle (vec_len values) }
    requires belong { StandInPlace T.belongs values.items }
    ensures { result.me ≡ idle 0 }
{
    while let Some(value) = values.pop() {
        let place = values.len() as u16;
        shared.store::<Fill>(&mut seat, place as usize, TAKEN);
        seats::put_back(shared, &mut seat, place, value);
    }
    values.destroy_empty();
    seat
}
