//! What a seat does at a place: it takes what stands there, puts a value back, or leaves it empty.
ghost use Rattle.std.specs.Prelude.{◌≡◌};
ghost use Rattle.dcr_lock.specs.Seats.{HasPlace, HoldsValue, holding, idle};
ghost use Rattle.dcr_lock.specs.Steps.{empty_then};

use crate::Placed;
use crate::steps::{EMPTY, FREE, GiveBack, PlaceSeat, SharedPlaces, TAKEN, Take};
use crate::waiters::Waiters;
use std::hint::spin_loop;
use std::sync::Wait;

/// Waits until the place is free, and takes its value. The seat holds the place then, with its slot empty. Where the place
/// was not free at once, `waited` becomes true.
pub(crate) fn take<T: Placed, R: Wait>(
    shared: &SharedPlaces<T>,
    waiters: &Waiters,
    rt: &R,
    seat: &mut PlaceSeat<T>,
    place: u16,
    waited: &mut bool,
) -> T
    requires row { seat.old.table_id ≡ shared.now.table_id }
    requires place { HasPlace shared.now.table_id place }
    requires idle { seat.old.me ≡ idle seat.old.me.0.empty }
    ensures belongs { T.belongs place result }
    ensures same { (seat.new.table_id ≡ seat.old.table_id) × (seat.new.id ≡ seat.old.id) }
    ensures holds { seat.new.me ≡ holding place seat.old.me.0.empty }
{
    let found = shared.compare_exchange::<Take>(seat, place as usize, FREE, TAKEN);
    if found == FREE {
        return take_out(shared, seat, place);
    }
    *waited = true;
    wait_for(shared, waiters, rt, seat, place, found as u32);
    take_out(shared, seat, place)
}

// Takes the value out of the slot of the place that the seat holds.
fn take_out<T: Placed>(shared: &SharedPlaces<T>, seat: &mut PlaceSeat<T>, place: u16) -> T
    requires row { seat.old.table_id ≡ shared.now.table_id }
    requires holds { HoldsValue T.belongs place seat.old.me.0.empty seat.old.me }
    ensures belongs { T.belongs place result }
    ensures same { (seat.new.table_id ≡ seat.old.table_id) × (seat.new.id ≡ seat.old.id) }
    ensures holds { seat.new.me ≡ holding place seat.old.me.0.empty }
{
    let stood = shared.exchange(seat, place as usize, None);
    let Some(value) = stood else { unreachable!() };
    value
}

// How often a place that is taken is looked at before a thread sleeps: the few tens of microseconds that a sleep and a wake
// cost, since most places are held for less.
const LOOKS: u32 = 1_000;

// Waits until a place at which this word stood is free, and holds it; its value stays in the slot. It stands by itself, and
// hands on no value, so that a place that is free is taken in few steps.
#[inline(never)]
fn wait_for<T: Placed, R: Wait>(
    shared: &SharedPlaces<T>,
    waiters: &Waiters,
    rt: &R,
    seat: &mut PlaceSeat<T>,
    place: u16,
    stood: u32,
)
    requires row { seat.old.table_id ≡ shared.now.table_id }
    requires place { HasPlace shared.now.table_id place }
    requires idle { seat.old.me ≡ idle seat.old.me.0.empty }
    ensures same { (seat.new.table_id ≡ seat.old.table_id) × (seat.new.id ≡ seat.old.id) }
    ensures holds { HoldsValue T.belongs place seat.old.me.0.empty seat.new.me }
{
    let mut found = stood;
    for _ in rt.forever() {
        if !is_freed(shared, place) {
            // It sleeps on what it found: a place that is empty stays so, and is not asked again and again.
            waiters.come();
            shared.park(rt, place as usize, found);
            waiters.go();
        }
        let next = shared.compare_exchange::<Take>(seat, place as usize, FREE, TAKEN);
        if next == FREE {
            return;
        }
        found = next as u32;
    }
    unreachable!()
}

// Looks at a place for a while, until it is free. Another thread may take it first, so that it tells nothing.
fn is_freed<T: Placed>(shared: &SharedPlaces<T>, place: u16) -> bool
    requires { HasPlace shared.now.table_id place }
{
    for _ in 0..LOOKS {
        let word = shared.peek(place as usize);
        if word != TAKEN {
            return word == FREE;
        }
        spin_loop();
    }
    false
}

/// Puts a value that belongs there into the slot of a place that the seat holds, and frees the place.
pub(crate) fn put_back<T: Placed>(
    shared: &SharedPlaces<T>,
    seat: &mut PlaceSeat<T>,
    place: u16,
    value: T,
)
    requires row { seat.old.table_id ≡ shared.now.table_id }
    requires place { HasPlace shared.now.table_id place }
    requires holds { seat.old.me ≡ holding place seat.old.me.0.empty }
    requires belongs { T.belongs place value }
    ensures same { (seat.new.table_id ≡ seat.old.table_id) × (seat.new.id ≡ seat.old.id) }
    ensures idle { seat.new.me ≡ idle seat.old.me.0.empty }
{
    let at = place as usize;
    let stood = shared.exchange(seat, at, Some(value));
    let None = stood else { unreachable!() };
    shared.store::<GiveBack>(seat, at, FREE);
}

/// Wakes one thread that waits for a place that was freed, where there is one.
pub(crate) fn wake<T: Placed>(shared: &SharedPlaces<T>, waiters: &Waiters, place: u16)
    requires { HasPlace shared.now.table_id place }
{
    if waiters.are_there() {
        shared.wake_one(place as usize);
    }
}

/// Leaves a place that the seat holds, and whose slot is empty, empty for ever.
pub(crate) fn leave_empty<T: Placed>(shared: &SharedPlaces<T>, seat: &mut PlaceSeat<T>, place: u16)
    requires row { seat.old.table_id ≡ shared.now.table_id }
    requires place { HasPlace shared.now.table_id place }
    requires holds { seat.old.me ≡ holding place seat.old.me.0.empty }
    ensures same { (seat.new.table_id ≡ seat.old.table_id) × (seat.new.id ≡ seat.old.id) }
    ensures idle { seat.new.me ≡ idle (empty_then 2 place seat.old.me.0.empty) }
{
    shared.store::<GiveBack>(seat, place as usize, EMPTY);
}
