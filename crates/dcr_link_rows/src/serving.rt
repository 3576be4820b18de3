// The sessions of a cluster of a case of its own, over links in memory.
ghost use Rattle.std.specs.Prelude.{◌≡◌, ◌<◌, ◌≤◌, [], Some};
ghost use Rattle.dcr_roles.specs.Accepted.{IsAccepted};
ghost use Rattle.dcr_cell.specs.Stored.{MayBegin};
ghost use Rattle.dcr_cluster_rows.specs.Made.{AreOfCase, cluster_of};

use crate::links::{Asking, Told, door_of, ends_of, links_of};
use dcr_base::{Disk, OpenGate};
use dcr_cell::StoreName;
use dcr_cluster_rows::{Parts, expect_valid, no_tape, opened, parts_of};
use dcr_fakes::{MemDisk, MemDoor};
use dcr_roles::{Accepted, read_accepted};
use dcr_serving::{ServeEnd, serve_sessions};
use dcr_tape::Store;
use dcr_turn::{Pass, TurnName};
use std::alloc::{AllocError, Global};
use std::marker::Brand;
use std::sync::Wait;
use std::test::Fail;
use std::thread::Threads;

/// Sessions of a case that are served: for how many entries there is room, 200,000 at most, how many sessions there are, by
/// how many workers, over which links, and the calls of the door that fail, counted from 1.
#[derive(Clone, Copy)]
pub(crate) struct Serving<'a> {
    pub(crate) text: &'a str,
    pub(crate) capacity: u32,
    pub(crate) sessions: u32,
    pub(crate) workers: u32,
    pub(crate) links: &'a [Asking<'a>],
    pub(crate) failing: &'a [u32],
}

/// What came of it: how each session has ended that had a link, how many calls each pass has made, how many links are left
/// at the door, and whether it failed.
#[derive(Drop)]
pub(crate) struct Came {
    pub(crate) ends: Vec<Told>,
    pub(crate) made: Vec<u32>,
    pub(crate) left: usize,
    pub(crate) door_failed: bool,
}

/// Serves the sessions. The report of the run is valid.
pub(crate) fn served<R: Threads + Wait + Sync>(
    rt: &R,
    alloc: Global,
    serving: &Serving<'_>,
) -> Result<Came, Fail> {
    let Serving {
        text,
        capacity,
        sessions,
        workers,
        links,
        failing,
    } = *serving;
    if capacity > 200_000 || sessions > 1024 || workers == 0 || workers > 64 {
        return Err(Fail::new("as much as there may be"));
    }
    let accepted = read_accepted(alloc, text.as_bytes())?;
    let parts = parts_of(alloc, &accepted.case, sessions)?;
    let door = door_of(alloc, links, failing)?;
    serve::<Brand, _>(
        rt,
        alloc,
        &accepted,
        parts,
        no_tape(alloc),
        capacity,
        workers,
        door,
    )
}

fn serve<N: StoreName<MemDisk> + Send + Sync, R: Threads + Wait + Sync>(
    rt: &R,
    alloc: Global,
    accepted: &Accepted,
    parts: Parts,
    store: Store<MemDisk>,
    capacity: u32,
    workers: u32,
    door: MemDoor,
) -> Result<Came, Fail>
    requires accepted { IsAccepted accepted.now }
    requires parts { AreOfCase accepted.now.case parts.blank parts.sites.items }
    requires cluster { N.cluster ≡ cluster_of accepted.now.case [] }
    requires turn { N.turn ≡ parts.blank }
    requires capacity { N.capacity ≡ capacity }
    requires most { capacity ≤ 200000 }
    requires first { N.first ≡ Some store }
    requires begins { MayBegin ⟦<MemDisk as Disk>⟧.view [] store }
    requires workers { (0 < workers) × (workers ≤ 64) }
{
    let case = &accepted.case;
    let opened = opened::<_, _, N>(alloc, case, parts, capacity, store, &[], OpenGate);
    let Ok((cluster, passes)) = opened else {
        return Err(Fail::new("the cluster is opened"));
    };
    let end = serve_sessions(
        rt,
        alloc,
        &cluster,
        passes,
        &case.graph,
        &case.cover,
        &accepted.policy,
        door,
        workers,
    );
    let ServeEnd {
        passes,
        door,
        door_failed,
        no_memory: _,
        ends,
    } = end;
    let made = made_by(alloc, &passes)?;
    let finished = cluster.close(rt, passes);
    expect_valid(alloc, case, &finished.closed)?;
    Ok(Came {
        ends: ends_of(alloc, &ends)?,
        made,
        left: links_of(door),
        door_failed,
    })
}

// How many calls each pass has made.
fn made_by<N: TurnName>(alloc: Global, passes: &[Pass<N>]) -> Result<Vec<u32>, AllocError> {
    let mut made = Vec::new(alloc);
    for pass in passes {
        made.push(pass.made())?;
    }
    Ok(made)
}
