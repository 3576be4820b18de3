ghost use Rattle.std.specs.Prelude.{◌≡◌, ◌<◌, ◌≤◌, length, Some, IfOk, IfErr, OnOk};
ghost use Rattle.std.specs.List.{All};
ghost use Rattle.dcr_graph.specs.GraphValue.{rules_of};
ghost use Rattle.dcr_graph.specs.Projection.{HasRoom};
ghost use Rattle.dcr_site.specs.Together.{AllStand};
ghost use Rattle.dcr_cell.specs.ClusterId.{IsNamed};
ghost use Rattle.dcr_cell.specs.Stored.{MayBegin};
ghost use Rattle.dcr_cluster.specs.Opening.{ArePossible, Refused};
ghost use Rattle.dcr_link.specs.Replies.{terms_of};
ghost use Rattle.dcr_serving.specs.Serving.{DoorEnds};
ghost use Rattle.dcr_engine.specs.Ran.{cluster_of};
ghost use Rattle.dcr_engine.specs.Served.{HasServed, most_served};

use crate::parts::{no_memory, parts_of};
use dcr_base::{Disk, Door, Gate, Link};
use dcr_cell::StoreName;
use dcr_cluster::{Cluster, ClusterBlank, Finished, OpenRefused};
use dcr_graph::{Graph, Marking};
use dcr_policy::Policy;
use dcr_proj::Cover;
use dcr_serving::{LinkEnd, ServeEnd, serve_sessions};
use dcr_site::Site;
use dcr_tape::{Store, TapeEntry};
use std::alloc::Global;
use std::marker::Brand;
use std::sync::Wait;
use std::thread::Threads;

/// The most entries of a history whose sessions come over links.
pub const MAX_ENTRIES: u32 = 200_000;

/// What came of a case whose sessions were served over links.
#[derive(Drop)]
pub struct CaseServed<D, B: Door> {
    /// The run, and the store.
    pub finished: Finished<D>,
    pub door: B,
    /// Whether the door failed, and was asked no more.
    pub door_failed: bool,
    /// Whether memory was wanted and could not be had, for the serving itself or by a session.
    pub no_memory: bool,
    /// How the session of each link has ended that the door gave, in order.
    pub ends: Vec<LinkEnd<B::Link>>,
}

/// A case whose sessions were not served. The door was not asked.
#[derive(Drop)]
pub struct CaseUnserved<D, B> {
    pub refused: OpenRefused<D>,
    pub door: B,
}

/// Serves so many sessions of a case, 1,024 at most, by 1 to 64 workers, each over a link that the door gives: the sites of
/// the cover, which is one of the graph's atoms, stand behind locks of their own, at the opening marking stepped by the
/// executions from before, of which there are 1,000,000 at most, and decide from their own marks. What comes back is the
/// run of the graph, the store (`HasServed`) and what became of the door (`DoorEnds`). The history has 200,000 entries at
/// most.
///
/// It is refused as `run_case` is. No call was made then, and the door was not asked.
pub fn serve_case<
    D: Disk + Send,
    G: Gate + Drop + Sync,
    B: Door<Link: Link<Rest: Send> + Send> + Send,
    R: Threads + Wait + Sync,
>(
    rt: &R,
    alloc: Global,
    graph: &Graph,
    cover: &Cover,
    policy: &Policy,
    opening: &Marking,
    sessions: u32,
    workers: u32,
    store: Store<D>,
    old: &[TapeEntry],
    gate: G,
    door: B,
) -> Result<CaseServed<D, B>, CaseUnserved<D, B>>
    requires policy { length policy.now.atoms ≡ length graph.now.names }
    requires rooms { All (λ set. length set ≡ length graph.now.names) cover.now.owned }
    requires opening { HasRoom (length graph.now.names) opening.now }
    requires most_sessions { sessions ≤ 1024 }
    requires workers { (0 < workers) × (workers ≤ 64) }
    requires few_old { length old.now ≤ 1000000 }
    requires begins { MayBegin D.view old.now store }
    ensures served { IfOk result (λ served. HasServed D.view D.faults B.tells.each
        (cluster_of graph.now cover.now opening.now old.now) store (terms_of cover.now.names graph.now.names policy.now) (B.tells.links door) sessions
        served.ends.items served.finished.closed served.finished.store) }
    ensures door { IfOk result (λ served. DoorEnds B.tells door served.door sessions served.ends.items
        served.door_failed served.no_memory) }
    ensures possible { OnOk result (ArePossible (cluster_of graph.now cover.now opening.now old.now) (length old.now)) }
    ensures refused { IfErr result (λ unserved. Refused D.view D.faults (cluster_of graph.now cover.now opening.now old.now) store
        unserved.refused.cause unserved.refused.store) }
    ensures unasked { IfErr result (λ unserved. unserved.door ≡ door) }
{
    let Ok((blank, sites)) = parts_of(alloc, graph, cover, opening, sessions) else {
        return Err(CaseUnserved {
            refused: no_memory(store),
            door,
        });
    };
    in_cluster::<D, G, Brand, B, R>(
        rt, alloc, graph, cover, policy, opening, blank, sites, workers, store, old, gate, door,
    )
}

// Serves them in the cluster of the graph and the cover, under its name.
fn in_cluster<
    D: Disk + Send,
    G: Gate + Drop + Sync,
    N: StoreName<D> + Send + Sync,
    B: Door<Link: Link<Rest: Send> + Send> + Send,
    R: Threads + Wait + Sync,
>(
    rt: &R,
    alloc: Global,
    graph: &Graph,
    cover: &Cover,
    policy: &Policy,
    opening: &Marking,
    blank: ClusterBlank,
    sites: Vec<Site>,
    workers: u32,
    store: Store<D>,
    old: &[TapeEntry],
    gate: G,
    door: B,
) -> Result<CaseServed<D, B>, CaseUnserved<D, B>>
    requires cluster { N.cluster ≡ cluster_of graph.now cover.now opening.now old.now }
    requires policy { length policy.now.atoms ≡ N.cluster.rules.atoms }
    requires named { IsNamed N.cluster N.turn }
    requires turn { blank ≡ N.turn }
    requires capacity { N.capacity ≡ most_served }
    requires sites { AllStand N.cluster.rules N.cluster.owned opening.now sites.items }
    requires workers { (0 < workers) × (workers ≤ 64) }
    requires store { N.first ≡ Some store }
    requires begins { MayBegin D.view old.now store }
    ensures served { IfOk result (λ served. HasServed D.view D.faults B.tells.each
        N.cluster store (terms_of cover.now.names graph.now.names policy.now) (B.tells.links door) N.turn.sessions
        served.ends.items served.finished.closed served.finished.store) }
    ensures door { IfOk result (λ served. DoorEnds B.tells door served.door N.turn.sessions served.ends.items
        served.door_failed served.no_memory) }
    ensures possible { OnOk result (ArePossible N.cluster (length old.now)) }
    ensures refused { IfErr result (λ unserved. Refused D.view D.faults N.cluster store
        unserved.refused.cause unserved.refused.store) }
    ensures unasked { IfErr result (λ unserved. unserved.door ≡ door) }
{
    let opened = Cluster::<D, G, N>::open(
        alloc,
        blank,
        sites,
        cover,
        opening,
        MAX_ENTRIES,
        store,
        old,
        gate,
    );
    let (cluster, passes) = match opened {
        Ok(opened) => opened,
        Err(refused) => return Err(CaseUnserved { refused, door }),
    };
    let end = serve_sessions(
        rt, alloc, &cluster, passes, graph, cover, policy, door, workers,
    );
    let ServeEnd {
        passes,
        door,
        door_failed,
        no_memory,
        ends,
    } = end;
    let finished = cluster.close(rt, passes);
    // A history has no more entries than its capacity.
    finished.closed.history.len();
    Ok(CaseServed {
        finished,
        door,
        door_failed,
        no_memory,
        ends,
    })
}
