// The sessions of a case, run by workers over a cluster of the case, which is closed then.
ghost use Rattle.std.specs.Prelude.{◌≡◌, ◌<◌, ◌≤◌, [], Some, length, IfOk};
ghost use Rattle.dcr_json.specs.Built.{IsCase};
ghost use Rattle.dcr_cell.specs.Stored.{MayBegin};
ghost use Rattle.dcr_cluster_rows.specs.Made.{AreOfCase, IsOfCase, cluster_of};

use crate::making::{Parts, no_tape, opened, parts_of};
use dcr_base::{Disk, OpenGate};
use dcr_cell::StoreName;
use dcr_cluster::Finished;
use dcr_fakes::MemDisk;
use dcr_journal::Closed;
use dcr_json::Case;
use dcr_tape::Store;
use dcr_work::run_sessions;
use std::alloc::Global;
use std::marker::Brand;
use std::sync::Wait;
use std::test::Fail;
use std::thread::Threads;

/// What the workers leave: the run, and of each pass that came back its session and how many calls it has made.
#[derive(Drop)]
pub(crate) struct Ended {
    pub(crate) closed: Closed,
    pub(crate) passes: Vec<(u32, u32)>,
}

/// Runs the sessions of the case by so many workers, with room for so many entries and no tape. It fails where there are
/// not 1 to 64 workers, or the room is for more than 200,000 entries.
pub(crate) fn worked<R: Threads + Wait + Sync>(
    rt: &R,
    alloc: Global,
    case: &Case,
    workers: u32,
    capacity: u32,
) -> Result<Ended, Fail>
    requires { IsCase case.now }
    ensures { IfOk result (λ end. IsOfCase case.now end.closed) }
{
    if workers == 0 || workers > 64 || capacity > 200_000 {
        return Err(Fail::new("workers and a room that there may be"));
    }
    let parts = parts_of(alloc, case, case.sessions.len() as u32)?;
    run::<Brand, _>(rt, alloc, case, parts, no_tape(alloc), workers, capacity)
}

fn run<N: StoreName<MemDisk> + Send + Sync, R: Threads + Wait + Sync>(
    rt: &R,
    alloc: Global,
    case: &Case,
    parts: Parts,
    store: Store<MemDisk>,
    workers: u32,
    capacity: u32,
) -> Result<Ended, Fail>
    requires case { IsCase case.now }
    requires parts { AreOfCase case.now parts.blank parts.sites.items }
    requires sessions { parts.blank.sessions ≡ length case.now.sessions }
    requires cluster { N.cluster ≡ cluster_of case.now [] }
    requires turn { N.turn ≡ parts.blank }
    requires capacity { N.capacity ≡ capacity }
    requires some { 0 < workers }
    requires few { workers ≤ 64 }
    requires most { capacity ≤ 200000 }
    requires first { N.first ≡ Some store }
    requires begins { MayBegin ⟦<MemDisk as Disk>⟧.view [] store }
    ensures { IfOk result (λ end. IsOfCase case.now end.closed) }
{
    let opened = opened::<_, _, N>(alloc, case, parts, capacity, store, &[], OpenGate);
    let Ok((cluster, passes)) = opened else {
        return Err(Fail::new("the cluster is opened"));
    };
    let run = run_sessions(rt, alloc, &cluster, passes, case.sessions.all(), workers);
    let Ok(passes) = run else {
        return Err(Fail::new("the sessions are run"));
    };
    let mut made = Vec::new(alloc);
    for pass in passes.iter() {
        made.push((pass.session(), pass.made()))?;
    }
    let Finished { closed, store: _ } = cluster.close(rt, passes);
    Ok(Ended {
        closed,
        passes: made,
    })
}
