ghost use Rattle.std.specs.Prelude.{◌≡◌, ◌≢◌, ◌⊎◌, ◌+◌, ◌<◌, ◌≤◌, ℕ, [], false, length, IsTrue};
ghost use Rattle.std.specs.List.{All, Any};
ghost use Rattle.dcr_base.specs.Count.{Rose};
ghost use Rattle.dcr_graph.specs.GraphValue.{rules_of};
ghost use Rattle.dcr_turn.specs.PassValue.{new_passes};
ghost use Rattle.dcr_serve.specs.Left.{AreAllButFirst};
ghost use Rattle.dcr_serve.specs.declared.stand.DoorStand.TheVariants.{Failed as HasFailed};
ghost use Rattle.dcr_link.specs.Replies.{IsOfCluster, terms_of};
ghost use Rattle.dcr_link.specs.declared.end.WorkCause.TheVariants.{NoMemory};
ghost use Rattle.dcr_serving.specs.Serving.{AreServed, DoorEnds};

use crate::desk::work_at;
use crate::gather::take_out;
use crate::going::go_on;
use crate::room::{Room, seated};
use crate::{LinkEnd, ServeEnd};
use dcr_base::{Disk, Door, Gate, Link};
use dcr_cell::StoreName;
use dcr_cluster::Cluster;
use dcr_graph::Graph;
use dcr_link::{Scene, WorkCause};
use dcr_policy::Policy;
use dcr_proj::Cover;
use dcr_serve::{DeskName, DoorStand};
use dcr_turn::Pass;
use std::alloc::Global;
use std::marker::Brand;
use std::sync::Wait;
use std::sync::ledger::Blank;
use std::thread::Threads;

/// Serves the sessions of a cluster by 1 to 64 workers, each in a thread of its own where one can be had: each session over
/// a link of its own, which the door gives. The passes are all those of the cluster, in order, and have made no call; the
/// graph's atoms and the cover's sites have the names by which calls are asked for.
///
/// The n-th link, counted from 0, is session n's. A worker takes the next link, serves its session to the end
/// (`serve_session`), ends the link and takes the next one, until every session has had its link or the door is shut or
/// has failed. So a link waits for its turn while each worker holds another, and no lock of the cluster is held while a
/// link or the door is waited for.
///
/// All memory but that of the sessions is taken before the door is asked. Where it can't be had the door isn't asked.
pub fn serve_sessions<
    D: Disk + Send,
    G: Gate + Drop + Sync,
    N: StoreName<D> + Send + Sync,
    B: Door<Link: Link<Rest: Send> + Send> + Send,
    R: Threads + Wait + Sync,
>(
    rt: &R,
    alloc: Global,
    cluster: &Cluster<D, G, N>,
    passes: Vec<Pass<N>>,
    graph: &Graph,
    cover: &Cover,
    policy: &Policy,
    door: B,
    workers: u32,
) -> ServeEnd<B, N>
    requires graph { rules_of graph.now ≡ N.cluster.rules }
    requires cover { cover.now.owned ≡ N.cluster.owned }
    requires policy { length policy.now.atoms ≡ N.cluster.rules.atoms }
    requires passes { passes.items ≡ new_passes N.turn.sessions }
    requires workers { (0 < workers) × (workers ≤ 64) }
    ensures served { AreServed B.tells.each
        N.first N.capacity (terms_of cover.now.names graph.now.names policy.now) (B.tells.links door) N.turn.sessions result.passes.items result.ends.items }
    ensures door { DoorEnds B.tells door result.door N.turn.sessions result.ends.items
        result.door_failed result.no_memory }
{
    // A cover has as many sets as names.
    cover.sites();
    let Ok(scene) = Scene::new(alloc, graph, cover, policy) else {
        return ServeEnd {
            passes,
            door,
            door_failed: false,
            no_memory: true,
            ends: Vec::new(alloc),
        };
    };
    at_desk::<D, G, N, B, Brand, R>(
        rt,
        alloc,
        cluster,
        passes,
        &scene,
        door,
        workers,
        Blank::new(workers as u64 + 1),
    )
}

// The same at a desk, under its name.
fn at_desk<
    D: Disk + Send,
    G: Gate + Drop + Sync,
    N: StoreName<D> + Send + Sync,
    B: Door<Link: Link<Rest: Send> + Send> + Send,
    M: DeskName<B::Link> + Send + Sync,
    R: Threads + Wait + Sync,
>(
    rt: &R,
    alloc: Global,
    cluster: &Cluster<D, G, N>,
    passes: Vec<Pass<N>>,
    scene: &Scene<'_>,
    door: B,
    workers: u32,
    blank: Blank,
) -> ServeEnd<B, N>
    requires scene { IsOfCluster N.cluster scene.now }
    requires passes { passes.items ≡ new_passes N.turn.sessions }
    requires workers { (0 < workers) × (workers ≤ 64) }
    requires items { M.items ≡ N.turn.sessions }
    requires ledger { (blank.name ≡ M.name) × (blank.parts ≡ M.parts) }
    requires parts { blank.parts ≡ workers + 1 }
    requires faults { B.tells.faults door ≡ M.faults }
    requires links { B.tells.links door ≡ M.links }
    ensures served { AreServed B.tells.each
        N.first N.capacity scene.now (B.tells.links door) N.turn.sessions result.passes.items result.ends.items }
    ensures door { DoorEnds B.tells door result.door N.turn.sessions result.ends.items
        result.door_failed result.no_memory }
{
    let sessions = passes.len();
    let Ok(room) = Room::<B::Link, N, M>::new(alloc, sessions, workers as usize) else {
        return ServeEnd {
            passes,
            door,
            door_failed: false,
            no_memory: true,
            ends: Vec::new(alloc),
        };
    };
    let Room {
        seats,
        records,
        hands,
        mut slots,
        passes: mut served,
        mut ends,
    } = room;
    let seats = seated(passes, seats);
    let places = slots.as_mut_slice();
    let (mut door, left, stand) = work_at(
        rt, alloc, cluster, scene, door, seats, records, hands, places, blank,
    );
    take_out(places, sessions - left.len(), &mut served, &mut ends);
    let stand = go_on(
        rt,
        alloc,
        cluster,
        scene,
        &mut door,
        stand,
        left,
        &mut served,
        &mut ends,
    );
    let no_memory = any_wanted(&ends);
    ServeEnd {
        passes: served,
        door,
        door_failed: has_failed(stand),
        no_memory,
        ends,
    }
}

fn has_failed(stand: DoorStand) -> bool
    ensures failed { IsTrue result → stand ≡ HasFailed }
    ensures not_failed { result ≡ false → stand ≢ HasFailed }
{
    match stand {
        DoorStand::Failed => true,
        DoorStand::Open | DoorStand::Shut => false,
    }
}

// Whether a session wanted memory that could not be had.
fn any_wanted<L: Link>(ends: &[LinkEnd<L>]) -> bool
    ensures some { IsTrue result → Any (λ one. one.end.cause ≡ NoMemory) ends.now }
    ensures none { result ≡ false → All (λ one. one.end.cause ≢ NoMemory) ends.now }
{
    for one in ends {
        if let WorkCause::NoMemory = one.end.cause {
            return true;
        }
    }
    false
}
