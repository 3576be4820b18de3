// One worker at a desk, and four.
ghost use Rattle.std.specs.Prelude.{◌≡◌, ◌<◌, Some, map};
ghost use Rattle.dcr_serve.specs.Left.{numbers_from};

use crate::build::{Item, door, items};
use crate::same::same;
use crate::threads::four;
use crate::working::{Left, Taken, end, take_all};
use dcr_fakes::{MemDoor, MemLink};
use dcr_serve::{Desk, DeskName, DoorStand};
use std::alloc::{AllocError, Global};
use std::marker::Brand;
use std::sync::Wait;
use std::sync::ledger::Blank;
use std::test::Fail;
use std::thread::Threads;

// One worker takes all that a desk gives.
fn one<N: DeskName<MemLink>, R: Wait>(
    rt: &R,
    alloc: Global,
    door: MemDoor,
    items: Vec<Item>,
    count: u32,
    blank: Blank,
) -> Result<(Vec<Taken>, Left), AllocError>
    requires in_order { map (λ (item : Item). item.0) items.items ≡ numbers_from 0 count }
    requires count { count ≡ N.items }
    requires some_part { 0 < blank.parts }
    requires ledger { (blank.name ≡ N.name) × (blank.parts ≡ N.parts) }
    requires faults { door.calls.faults ≡ N.faults }
    requires links { Some door.links ≡ N.links }
{
    let (desk, share) = Desk::<MemDoor, Item, N>::new(door, items, blank);
    let (share, taken) = take_all(rt, alloc, &desk, share)?;
    Ok((taken, end(alloc, desk, share)?))
}

// What one worker takes, or four, at a desk with so many items and links, where these calls of the door fail.
fn worked<R: Threads + Wait + Sync>(
    rt: &R,
    alloc: Global,
    count: u32,
    links: u32,
    failing: &[u32],
    is_one: bool,
) -> Result<(Vec<Taken>, Left), AllocError> {
    let door = door(alloc, links, failing)?;
    let items = items(alloc, count)?;
    if is_one {
        one::<Brand, R>(rt, alloc, door, items, count, Blank::new(1))
    } else {
        four::<Brand, R>(rt, alloc, door, items, count, Blank::new(4))
    }
}

// A desk of so many items and links, where these calls of the door fail: what is taken, and what is left.
struct Row {
    items: u32,
    links: u32,
    failing: &'static [u32],
    taken: &'static [Taken],
    items_left: &'static [u32],
    links_left: &'static [Option<u32>],
    stand: DoorStand,
}

static ROWS: [Row; 6] = [
    // Each item with a link, in order. A link more stays at the door.
    Row {
        items: 3,
        links: 4,
        failing: &[],
        taken: &[(0, Some(0)), (1, Some(1)), (2, Some(2))],
        items_left: &[],
        links_left: &[Some(3)],
        stand: DoorStand::Open,
    },
    // The door shuts before the items end.
    Row {
        items: 5,
        links: 3,
        failing: &[],
        taken: &[(0, Some(0)), (1, Some(1)), (2, Some(2))],
        items_left: &[3, 4],
        links_left: &[],
        stand: DoorStand::Shut,
    },
    // Its second call fails. No item and no link is lost, and it isn't asked again.
    Row {
        items: 3,
        links: 3,
        failing: &[2],
        taken: &[(0, Some(0))],
        items_left: &[1, 2],
        links_left: &[Some(1), Some(2)],
        stand: DoorStand::Failed,
    },
    // Its first call fails.
    Row {
        items: 1,
        links: 1,
        failing: &[1],
        taken: &[],
        items_left: &[0],
        links_left: &[Some(0)],
        stand: DoorStand::Failed,
    },
    // Where no item is left it isn't asked: its third call would fail.
    Row {
        items: 2,
        links: 2,
        failing: &[3],
        taken: &[(0, Some(0)), (1, Some(1))],
        items_left: &[],
        links_left: &[],
        stand: DoorStand::Open,
    },
    // No item at all, and no link.
    Row {
        items: 0,
        links: 0,
        failing: &[],
        taken: &[],
        items_left: &[],
        links_left: &[],
        stand: DoorStand::Open,
    },
];

#[test]
fn items_come_in_order_each_with_its_link(rt: HostRuntime) -> Result<(), Fail> {
    for row in ROWS.iter() {
        let (taken, left) = worked(&rt, rt.alloc(), row.items, row.links, row.failing, true)?;
        same(&rt, &taken.as_slice(), &row.taken, "taken");
        same(&rt, &left.items.as_slice(), &row.items_left, "items left");
        same(&rt, &left.links.as_slice(), &row.links_left, "links left");
        same(&rt, &left.stand, &row.stand, "how the door stands");
    }
    Ok(())
}

#[test]
fn each_item_is_taken_once_with_its_link_by_four_workers(rt: HostRuntime) -> Result<(), Fail> {
    for (links, stand) in [(2_000, DoorStand::Open), (1_500, DoorStand::Shut)] {
        let (mut taken, left) = worked(&rt, rt.alloc(), 2_000, links, &[], false)?;
        taken.sort_unstable();
        same(&rt, &taken.len(), &(links as usize), "taken");
        for (number, one) in (0..links).zip(&taken) {
            same(&rt, one, &(number, Some(number)), "an item");
        }
        let left_over = left.items.len().saturating_add(links as usize);
        same(&rt, &left_over, &2_000, "items left");
        same(&rt, &left.links.len(), &0, "links left");
        same(&rt, &left.stand, &stand, "how the door stands");
    }
    Ok(())
}
