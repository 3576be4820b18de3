// Workers at a desk, and its end.
ghost use Rattle.std.specs.Prelude.{◌≡◌, IfOk};

use crate::build::{Item, asked};
use dcr_base::Door;
use dcr_fakes::{MemDoor, MemLink};
use dcr_serve::{Desk, DeskName, DeskShare, DoorStand, Numbered};
use std::alloc::{AllocError, Global};
use std::sync::Wait;

/// The number of an item that was taken, and what its link asked.
pub(crate) type Taken = (u32, Option<u32>);

/// What was left at the end: the numbers of the items, what the links asked, and how the door stood.
#[derive(Drop)]
pub(crate) struct Left {
    pub(crate) items: Vec<u32>,
    pub(crate) links: Vec<Option<u32>>,
    pub(crate) stand: DoorStand,
}

/// Takes items until there is none, and asks once more: what that gave is taken too.
pub(crate) fn take_all<N: DeskName<MemLink>, R: Wait>(
    rt: &R,
    alloc: Global,
    desk: &Desk<MemDoor, Item, N>,
    mut share: DeskShare<N>,
) -> Result<(DeskShare<N>, Vec<Taken>), AllocError>
    ensures { IfOk result (λ worked. worked.0.parts ≡ share.parts) }
{
    let mut taken = Vec::new(alloc);
    for _ in 0..10_000u32 {
        let Some((item, link)) = desk.take(rt, &mut share) else {
            break;
        };
        taken.push((item.number(), asked(link)))?;
    }
    if let Some((item, link)) = desk.take(rt, &mut share) {
        taken.push((item.number(), asked(link)))?;
    }
    Ok((share, taken))
}

/// Ends the desk, and asks its door for the links that are left.
pub(crate) fn end<N: DeskName<MemLink>>(
    alloc: Global,
    desk: Desk<MemDoor, Item, N>,
    share: DeskShare<N>,
) -> Result<Left, AllocError>
    requires { share.parts ≡ N.parts }
{
    let (mut door, rest, stand) = desk.finish(share);
    let mut items = Vec::new(alloc);
    for item in rest {
        items.push(item.number())?;
    }
    let mut links = Vec::new(alloc);
    for _ in 0..10_000u32 {
        let Ok(Some(link)) = door.next() else {
            break;
        };
        links.push(asked(link))?;
    }
    Ok(Left {
        items,
        links,
        stand,
    })
}
