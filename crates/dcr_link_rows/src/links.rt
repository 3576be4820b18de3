// Links in memory that somebody asks over.
ghost use Rattle.std.specs.Prelude.{◌≤◌, IfOk};
ghost use Rattle.dcr_fakes.specs.LinkState.{IsFresh};

use dcr_base::Door;
use dcr_fakes::{MemDoor, MemLink, MemSink, MemSource};
use dcr_link::WorkEnd;
use dcr_serving::LinkEnd;
use std::alloc::{AllocError, Global};

/// What somebody asks over a link: the bytes, how many come at a time, the reads that fail, counted from 1, and for how
/// many bytes of replies there is room.
#[derive(Clone, Copy)]
pub struct Asking<'a> {
    pub bytes: &'a [u8],
    pub step: usize,
    pub failing: &'a [u32],
    pub room: usize,
}

/// Bytes that come seven at a time, over a link that takes all that is answered.
pub fn whole(bytes: &[u8]) -> Asking<'_> {
    Asking {
        bytes,
        step: 7,
        failing: &[],
        room: 1 << 24,
    }
}

/// How one session has ended, and what its link has taken.
#[derive(Drop)]
pub struct Told {
    pub session: u32,
    pub end: WorkEnd,
    pub taken: Vec<u8>,
}

// So many bytes, and one at least.
fn some(step: usize) -> usize
    ensures { 1 ≤ result }
{
    if step == 0 { 1 } else { step }
}

fn link(alloc: Global, asking: Asking<'_>) -> Result<MemLink, AllocError>
    ensures { IfOk result IsFresh }
{
    let source = MemSource::new(
        asking.bytes.to_vec(alloc)?,
        some(asking.step),
        asking.failing.to_vec(alloc)?,
    );
    Ok(MemLink::new(source, MemSink::new(alloc, asking.room)))
}

/// A door with these links, which fails at the calls of these numbers, counted from 1.
pub fn door_of(
    alloc: Global,
    askings: &[Asking<'_>],
    failing: &[u32],
) -> Result<MemDoor, AllocError> {
    let mut links = Vec::new(alloc);
    for asking in askings {
        links.push(link(alloc, *asking)?)?;
    }
    Ok(MemDoor::new(links, failing.to_vec(alloc)?))
}

/// How these sessions have ended.
pub fn ends_of(alloc: Global, ends: &[LinkEnd<MemLink>]) -> Result<Vec<Told>, AllocError> {
    let mut all = Vec::new(alloc);
    for one in ends {
        all.push(Told {
            session: one.session,
            end: one.end,
            taken: one.rest.taken().to_vec(alloc)?,
        })?;
    }
    Ok(all)
}

/// How many links a door has left, where it fails no more.
pub fn links_of(mut door: MemDoor) -> usize {
    for left in 0..10_000 {
        let Ok(Some(_)) = door.next() else {
            return left;
        };
    }
    10_000
}
