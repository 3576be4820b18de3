// Four workers at one desk, each in a thread of its own.
ghost use Rattle.std.specs.Prelude.{◌≡◌, ◌+◌, ◌<◌, Some, map, IfOk};
ghost use Rattle.dcr_serve.specs.Left.{numbers_from};

use crate::build::Item;
use crate::working::{Left, Taken, end, take_all};
use dcr_fakes::{MemDoor, MemLink};
use dcr_serve::{Desk, DeskName, DeskShare};
use std::alloc::{AllocError, Global};
use std::sync::Wait;
use std::sync::ledger::Blank;
use std::thread::{Threads, join};

// Two workers at once, with a share each. They give one share back.
fn two<N: DeskName<MemLink> + Send + Sync, R: Threads + Wait + Sync>(
    rt: &R,
    alloc: Global,
    desk: &Desk<MemDoor, Item, N>,
    one: DeskShare<N>,
    other: DeskShare<N>,
) -> Result<(DeskShare<N>, Vec<Taken>), AllocError>
    requires one { one.parts ≡ 1 }
    requires other { other.parts ≡ 1 }
    ensures { IfOk result (λ worked. worked.0.parts ≡ 2) }
{
    let (first, second) = join(
        rt,
        || -> Result<(DeskShare<N>, Vec<Taken>), AllocError>
            requires { one.parts ≡ 1 }
            ensures { IfOk result (λ worked. worked.0.parts ≡ 1) }
        { take_all(rt, alloc, desk, one) },
        || -> Result<(DeskShare<N>, Vec<Taken>), AllocError>
            requires { other.parts ≡ 1 }
            ensures { IfOk result (λ worked. worked.0.parts ≡ 1) }
        { take_all(rt, alloc, desk, other) },
    );
    let (mut share, mut taken) = first?;
    let (others, mut more) = second?;
    share.merge(others);
    taken.append(&mut more)?;
    Ok((share, taken))
}

/// Four workers take all that a desk gives.
pub(crate) fn four<N: DeskName<MemLink> + Send + Sync, R: Threads + Wait + Sync>(
    rt: &R,
    alloc: Global,
    door: MemDoor,
    items: Vec<Item>,
    count: u32,
    blank: Blank,
) -> Result<(Vec<Taken>, Left), AllocError>
    requires in_order { map (λ (item : Item). item.0) items.items ≡ numbers_from 0 count }
    requires count { count ≡ N.items }
    requires parts { blank.parts ≡ 4 }
    requires ledger { (blank.name ≡ N.name) × (blank.parts ≡ N.parts) }
    requires faults { door.calls.faults ≡ N.faults }
    requires links { Some door.links ≡ N.links }
{
    let (desk, mut first) = Desk::<MemDoor, Item, N>::new(door, items, blank);
    let second = first.split();
    let third = first.split();
    let fourth = first.split();
    let shared = &desk;
    let (a, b) = join(
        rt,
        || -> Result<(DeskShare<N>, Vec<Taken>), AllocError>
            requires { (first.parts ≡ 1) × (second.parts ≡ 1) }
            ensures { IfOk result (λ worked. worked.0.parts ≡ 2) }
        { two(rt, alloc, shared, first, second) },
        || -> Result<(DeskShare<N>, Vec<Taken>), AllocError>
            requires { (third.parts ≡ 1) × (fourth.parts ≡ 1) }
            ensures { IfOk result (λ worked. worked.0.parts ≡ 2) }
        { two(rt, alloc, shared, third, fourth) },
    );
    let (mut share, mut taken) = a?;
    let (others, mut more) = b?;
    share.merge(others);
    taken.append(&mut more)?;
    Ok((taken, end(alloc, desk, share)?))
}
