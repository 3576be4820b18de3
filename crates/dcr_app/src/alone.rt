// A case that is run by one worker and without a store.
ghost use Rattle.std.specs.Prelude.{◌≡◌, length, IfSome};
ghost use Rattle.dcr_graph.specs.Projection.{HasRoom};
ghost use Rattle.dcr_json.specs.Built.{IsCase};
ghost use Rattle.dcr_app.specs.Adapted.{RanAlone};

use crate::stored::disk_of;
use dcr_base::{Disk, Gate};
use dcr_cluster::{Finished, OpenRefused};
use dcr_engine::{ordered_is_told, run_case};
use dcr_graph::Marking;
use dcr_journal::Closed;
use dcr_json::Case;
use dcr_tape::Store;
use std::alloc::Global;
use std::sync::Wait;
use std::thread::Threads;

/// Runs the sessions of a case from this marking, by one worker and without a tape. None where memory ran out.
pub(crate) fn run_alone<D: Disk + Send, G: Gate + Drop + Sync, R: Threads + Wait + Sync>(
    rt: &R,
    alloc: Global,
    case: &Case,
    opening: &Marking,
    disk: D,
    gate: &G,
) -> (Option<Closed>, D)
    requires case { IsCase case.now }
    requires room { HasRoom (length case.now.graph.names) opening.now }
    ensures ran { IfSome result.0 (RanAlone case.now.graph case.now.cover.owned opening.now case.now.sessions) }
    ensures disk { result.1 ≡ disk }
{
    // Which run is the told one.
    ordered_is_told();
    let ran = run_case(
        rt,
        alloc,
        &case.graph,
        &case.cover,
        opening,
        case.sessions.all(),
        1,
        Store::Off(disk),
        &[],
        gate,
    );
    match ran {
        Ok(Finished { closed, store }) => (Some(closed), disk_of(store)),
        // Without a tape a run is refused for want of memory alone.
        Err(OpenRefused { store, .. }) => (None, disk_of(store)),
    }
}
