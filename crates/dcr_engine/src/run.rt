ghost use Rattle.std.specs.Prelude.{◌≡◌, ◌<◌, ◌≤◌, length, sum_by, Some, IfOk, IfErr, OnOk};
ghost use Rattle.std.specs.List.{All};
ghost use Rattle.dcr_graph.specs.GraphValue.{rules_of};
ghost use Rattle.dcr_graph.specs.Projection.{HasRoom};
ghost use Rattle.dcr_journal.specs.Run.{IsInRange};
ghost use Rattle.dcr_site.specs.Together.{AllStand};
ghost use Rattle.dcr_cell.specs.ClusterId.{IsNamed};
ghost use Rattle.dcr_cell.specs.Stored.{MayBegin};
ghost use Rattle.dcr_cluster.specs.Opening.{ArePossible, Refused};
ghost use Rattle.dcr_engine.specs.Ran.{HasRun, cluster_of};

use crate::parts::{no_memory, parts_of};
use dcr_base::{Disk, Gate};
use dcr_cell::StoreName;
use dcr_cluster::{Cluster, ClusterBlank, Finished, OpenRefused};
use dcr_graph::{Graph, Marking};
use dcr_journal::CallList;
use dcr_proj::Cover;
use dcr_site::Site;
use dcr_tape::{Store, TapeEntry};
use dcr_work::{RunStop, history_in_worker_order, run_sessions};
use std::alloc::Global;
use std::marker::Brand;
use std::sync::Wait;
use std::thread::Threads;

/// Runs the sessions of a case by 1 to 64 workers: the sites of the cover, which is one of the graph's atoms, stand behind
/// locks of their own, at the opening marking stepped by the executions from before, and decide from their own marks. What
/// comes back is the run of the graph, and the store (`HasRun`). There are at most 1,024 sessions and 200,000 calls, whose
/// numbers are those of sites and atoms, and at most 1,000,000 executions from before.
///
/// It is refused with the place of the first execution from before that can't be done; with `DiskFault` where the disk
/// failed while an old tape was renewed; and for want of memory. No call was made then, and the store comes back, as a
/// cluster that isn't opened leaves it (`Refused`).
pub fn run_case<D: Disk + Send, G: Gate + Drop + Sync, R: Threads + Wait + Sync>(
    rt: &R,
    alloc: Global,
    graph: &Graph,
    cover: &Cover,
    opening: &Marking,
    sessions: &[CallList],
    workers: u32,
    store: Store<D>,
    old: &[TapeEntry],
    gate: G,
) -> Result<Finished<D>, OpenRefused<D>>
    requires rooms { All (λ set. length set ≡ length graph.now.names) cover.now.owned }
    requires opening { HasRoom (length graph.now.names) opening.now }
    requires most_sessions { length sessions.now ≤ 1024 }
    requires most_calls { sum_by (λ calls. length calls) sessions.now ≤ 200000 }
    requires in_range { All (λ calls. All (IsInRange (length cover.now.owned) (length graph.now.names)) calls) sessions.now }
    requires workers { (0 < workers) × (workers ≤ 64) }
    requires few_old { length old.now ≤ 1000000 }
    requires begins { MayBegin D.view old.now store }
    ensures ran { IfOk result (λ finished. HasRun D.view D.faults (cluster_of graph.now cover.now opening.now old.now) store workers sessions.now
        finished.closed finished.store) }
    ensures possible { OnOk result (ArePossible (cluster_of graph.now cover.now opening.now old.now) (length old.now)) }
    ensures refused { IfErr result (λ refused. Refused D.view D.faults (cluster_of graph.now cover.now opening.now old.now) store
        refused.cause refused.store) }
{
    let parts = parts_of(alloc, graph, cover, opening, sessions.len() as u32);
    let Ok((blank, sites)) = parts else {
        return Err(no_memory(store));
    };
    in_cluster::<D, G, Brand, R>(
        rt,
        alloc,
        graph,
        cover,
        opening,
        blank,
        sites,
        sessions,
        count_calls(sessions),
        workers,
        store,
        old,
        gate,
    )
}

// How many calls the sessions have.
fn count_calls(sessions: &[CallList]) -> u32
    requires { sum_by (λ calls. length calls) sessions.now ≤ 200000 }
    ensures { result ≡ sum_by (λ calls. length calls) sessions.now }
{
    let mut count = 0;
    for calls in sessions {
        count += calls.len() as u32;
    }
    count
}

// Runs them in the cluster of the graph and the cover, under its name.
fn in_cluster<
    D: Disk + Send,
    G: Gate + Drop + Sync,
    N: StoreName<D> + Send + Sync,
    R: Threads + Wait + Sync,
>(
    rt: &R,
    alloc: Global,
    graph: &Graph,
    cover: &Cover,
    opening: &Marking,
    blank: ClusterBlank,
    sites: Vec<Site>,
    sessions: &[CallList],
    capacity: u32,
    workers: u32,
    store: Store<D>,
    old: &[TapeEntry],
    gate: G,
) -> Result<Finished<D>, OpenRefused<D>>
    requires cluster { N.cluster ≡ cluster_of graph.now cover.now opening.now old.now }
    requires named { IsNamed N.cluster N.turn }
    requires turn { blank ≡ N.turn }
    requires as_many { length sessions.now ≡ N.turn.sessions }
    requires capacity { capacity ≡ N.capacity }
    requires all_calls { capacity ≡ sum_by (λ calls. length calls) sessions.now }
    requires most { capacity ≤ 200000 }
    requires sites { AllStand N.cluster.rules N.cluster.owned opening.now sites.items }
    requires in_range { All (λ calls. All (IsInRange (length N.cluster.owned) N.cluster.rules.atoms) calls) sessions.now }
    requires workers { (0 < workers) × (workers ≤ 64) }
    requires store { N.first ≡ Some store }
    requires begins { MayBegin D.view old.now store }
    ensures ran { IfOk result (λ finished. HasRun D.view D.faults N.cluster store workers sessions.now finished.closed finished.store) }
    ensures possible { OnOk result (ArePossible N.cluster (length old.now)) }
    ensures refused { IfErr result (λ refused. Refused D.view D.faults N.cluster store refused.cause refused.store) }
{
    // What the order of the workers says of the history.
    history_in_worker_order();
    let opened = Cluster::<D, G, N>::open(
        alloc, blank, sites, cover, opening, capacity, store, old, gate,
    );
    let (cluster, passes) = match opened {
        Ok(opened) => opened,
        Err(refused) => return Err(refused),
    };
    match run_sessions(rt, alloc, &cluster, passes, sessions, workers) {
        Ok(passes) => Ok(cluster.close(rt, passes)),
        Err(RunStop { passes }) => Err(no_memory(cluster.close(rt, passes).store)),
    }
}
