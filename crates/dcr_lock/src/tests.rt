// That each call can succeed, and what no clause says: that two places are held at once, and that no
// change under a lock is lost.
ghost use Rattle.std.specs.Prelude.{◌≡◌, ◌<◌, ◌≤◌, length, vec_len, IfOk};
ghost use Rattle.dcr_lock.specs.Placing.{StandInPlace};

use crate::{Placed, Row};
use dcr_set::NoMemory;
use std::alloc::{AllocError, Global};
use std::sync::Wait;
use std::sync::atomic::AtomicBool;
use std::sync::atomic::Ordering::SeqCst;
use std::test::Fail;
use std::thread;
use std::thread::Threads;
use std::time::Duration;

#[derive(Drop)]
struct Lot {
    place: u16,
    amount: u64,
}

impl Placed for Lot {
    ghost use Rattle.std.specs.Prelude.{◌≡◌};

    ghost belongs = { λ place lot. lot.place ≡ place };
}

// A value that can't be let go.
struct Deed {
    place: u16,
    number: u64,
}

impl Placed for Deed {
    ghost use Rattle.std.specs.Prelude.{◌≡◌};

    ghost belongs = { λ place deed. deed.place ≡ place };
}

// A row of lots of these amounts.
fn opened(alloc: Global, amounts: &[u64]) -> Result<Row<Lot>, NoMemory>
    requires { (0 < length amounts.now) × (length amounts.now ≤ 64) }
    ensures { IfOk result (λ row. row ≡ length amounts.now) }
{
    let lots = lots(alloc, amounts)?;
    match Row::open(alloc, lots) {
        Ok(row) => Ok(row),
        Err(refused) => Err(NoMemory::from(refused)),
    }
}

fn lots(alloc: Global, amounts: &[u64]) -> Result<Vec<Lot>, AllocError>
    requires { length amounts.now ≤ 64 }
    ensures count { IfOk result (λ lots. vec_len lots ≡ length amounts.now) }
    ensures belong { IfOk result (λ lots. StandInPlace (λ place lot. lot.place ≡ place) lots.items) }
{
    let mut lots = Vec::with_capacity(alloc, amounts.len())?;
    for amount in amounts {
        lots.push_reserved(Lot {
            place: lots.len() as u16,
            amount: *amount,
        });
    }
    Ok(lots)
}

// Waits until the flag is set, but not for ever.
fn comes(flag: &AtomicBool) -> bool {
    for _ in 0..10_000_000u32 {
        if flag.load(SeqCst) {
            return true;
        }
        thread::yield_now();
    }
    false
}

#[test]
fn two_places(rt: HostRuntime) -> Result<(), Fail> {
    let row = opened(rt.alloc(), &[10, 20])?;
    let first_held = AtomicBool::new(false);
    let second_seen = AtomicBool::new(false);
    let (in_time, (held_before, amount)) = thread::join(
        &rt,
        || {
            let first = row.lock(&rt, 0);
            first_held.store(true, SeqCst);
            let in_time = comes(&second_seen);
            first.unlock();
            in_time
        },
        || -> (bool, u64)
            requires { 1 < row }
        {
            let held_before = comes(&first_held);
            let mut second = row.lock(&rt, 1);
            let amount = second.value().amount;
            second_seen.store(true, SeqCst);
            second.unlock();
            (held_before, amount)
        },
    );
    assert!(rt; in_time && held_before);
    assert_eq!(rt; amount, 20);
    assert_eq!(rt; row.lock(&rt, 0).keep().amount, 10);
    Ok(())
}

// Who waits for a place is woken when that place is given back, though another stays held.
#[test]
fn a_place_given_back_wakes_who_waits_for_it(rt: HostRuntime) -> Result<(), Fail> {
    let row = opened(rt.alloc(), &[10, 20])?;
    let both_held = AtomicBool::new(false);
    let asks = AtomicBool::new(false);
    let was_woken = AtomicBool::new(false);
    let (in_time, (held_before, amount)) = thread::join(
        &rt,
        || -> bool
            requires { 1 < row }
        {
            let first = row.lock(&rt, 0);
            let second = row.lock(&rt, 1);
            both_held.store(true, SeqCst);
            let asked = comes(&asks);
            // Time for the other to fall asleep.
            thread::sleep(&rt, Duration::from_millis(100));
            second.unlock();
            let in_time = comes(&was_woken);
            first.unlock();
            asked && in_time
        },
        || -> (bool, u64)
            requires { 1 < row }
        {
            let held_before = comes(&both_held);
            asks.store(true, SeqCst);
            let mut second = row.lock(&rt, 1);
            was_woken.store(true, SeqCst);
            let amount = second.value().amount;
            second.unlock();
            (held_before, amount)
        },
    );
    assert!(rt; in_time && held_before);
    assert_eq!(rt; amount, 20);
    Ok(())
}

// No clause says that a row of so many is opened.
#[test]
fn a_row_has_the_most_places(rt: HostRuntime) -> Result<(), Fail> {
    let row = opened(rt.alloc(), &[7; 64])?;
    assert_eq!(rt; row.places(), 64);
    assert_eq!(rt; row.lock(&rt, 63).keep().amount, 7);
    Ok(())
}

// Adds 1 at each place in turn, ten thousand times.
fn take_turns<R: Wait>(rt: &R, row: &Row<Lot>, first: usize)
    requires { row.now ≡ 4 }
{
    for turn in 0..10_000usize {
        let mut held = row.lock(rt, (first.wrapping_add(turn) % 4) as u16);
        let lot = held.value();
        lot.amount = lot.amount.wrapping_add(1);
        held.unlock();
    }
}

#[test]
fn eight_threads_lose_no_count(rt: HostRuntime) -> Result<(), Fail> {
    let row = opened(rt.alloc(), &[0, 1, 2, 3])?;
    assert_eq!(rt; row.places(), 4);
    thread::map_indices(&rt, rt.alloc(), 8, &|i| take_turns(&rt, &row, i))?;
    let mut end = row.close();
    for spare in 0..4u64 {
        assert_eq!(rt; end.take(&rt).amount, 20_000 + spare);
    }
    end.finish();
    Ok(())
}

// Only where memory is short.
fn let_go(mut deeds: Vec<Deed>) {
    while let Some(deed) = deeds.pop() {
        let Deed {
            place: _,
            number: _,
        } = deed;
    }
    deeds.destroy_empty();
}

#[test]
fn deeds_that_cannot_be_let_go_come_back(rt: HostRuntime) -> Result<(), Fail> {
    let mut deeds = Vec::with_capacity(rt.alloc(), 2)?;
    deeds.push_reserved(Deed {
        place: 0,
        number: 7,
    });
    deeds.push_reserved(Deed {
        place: 1,
        number: 8,
    });
    let row = match Row::open(rt.alloc(), deeds) {
        Ok(row) => row,
        Err(refused) => {
            let_go(refused.values);
            return Err(Fail::new("no memory"));
        }
    };
    let number = row.change(&rt, 0, |deed| {
        let number = deed.number;
        deed.number = 9;
        number
    });
    let (grip, mut deed) = row.lock(&rt, 1).split();
    deed.number = 10;
    grip.join(deed).unlock();
    let mut end = row.close();
    let Deed {
        place: _,
        number: first,
    } = end.take(&rt);
    let Deed {
        place: _,
        number: second,
    } = end.take(&rt);
    end.finish();
    assert_eq!(rt; (number, first, second), (7, 9, 10));
    Ok(())
}
