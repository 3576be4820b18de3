ghost use Rattle.std.specs.Prelude.{◌≡◌, ◌+◌, ◌<◌, ◌≤◌, ℕ, [], length, map, slice_get, slice_index_or, Some, None};
ghost use Rattle.std.specs.List.{All};
ghost use Rattle.dcr_serve.specs.Left.{numbers_from};
ghost use Rattle.dcr_link.specs.Replies.{IsOfCluster};
ghost use Rattle.dcr_serving.specs.Hands.{HasServed, IsReady};
ghost use Rattle.dcr_serving.specs.Placing.{AreInPlace, HasRoom, filled};
ghost use Rattle.dcr_serving.specs.Serving.{IsServedOf, Stands};

use crate::gather::{gather, part};
use crate::record::Record;
use crate::room::deal;
use crate::seat::Seat;
use crate::work::{Hand, work};
use dcr_base::{Disk, Door, Gate, Link};
use dcr_cell::StoreName;
use dcr_cluster::Cluster;
use dcr_link::Scene;
use dcr_serve::{Desk, DeskName, DoorStand};
use std::alloc::Global;
use std::sync::Wait;
use std::sync::ledger::Blank;
use std::thread;
use std::thread::Threads;

/// The workers at a desk with these seats and this door. What was served is put in its place. Gives the door, the seats
/// that are left, and how the door stands.
pub(crate) fn work_at<
    D: Disk + Send,
    G: Gate + Drop + Sync,
    N: StoreName<D> + Send + Sync,
    B: Door<Link: Link<Rest: Send> + Send> + Send,
    M: DeskName<B::Link> + Send + Sync,
    R: Threads + Wait + Sync,
>(
    rt: &R,
    alloc: Global,
    cluster: &Cluster<D, G, N>,
    scene: &Scene<'_>,
    door: B,
    seats: Vec<Seat<N>>,
    records: Vec<Vec<Record<B::Link, N>>>,
    hands: Vec<Hand<B::Link, N, M>>,
    slots: &mut [Option<Record<B::Link, N>>],
    blank: Blank,
) -> (B, Vec<Seat<N>>, DoorStand)
    requires scene { IsOfCluster N.cluster scene.now }
    requires some { 0 < length records.items }
    requires seats { map (λ seat. seat.session) seats.items ≡ numbers_from 0 M.items }
    requires records { All (HasRoom M.items) records.items }
    requires hands { HasRoom (length records.items) hands }
    requires places { length slots.old ≡ M.items }
    requires empty { filled slots.old ≡ [] }
    requires ledger { (blank.name ≡ M.name) × (blank.parts ≡ M.parts) }
    requires parts { blank.parts ≡ length records.items + 1 }
    requires faults { B.tells.faults door ≡ M.faults }
    requires links { B.tells.links door ≡ M.links }
    ensures as_many { length slots.new ≡ M.items }
    ensures in_place { AreInPlace slots.new }
    ensures served { All (λ one. IsServedOf B.tells.each
        N.first N.capacity scene.now M.links one.pass one.end) (filled slots.new) }
    ensures left { map (λ seat. seat.session) result.1.items ≡ numbers_from (length (filled slots.new)) M.items }
    ensures within { length (filled slots.new) ≤ M.items }
    ensures free { All (λ seat. slice_get slots.new seat.session ≡ Some None) result.1.items }
    ensures stands { Stands B.tells M.links M.faults (length (filled slots.new)) result.2 result.0 }
{
    let sessions = slots.len();
    let (desk, mut share) = Desk::<B, Seat<N>, M>::new(door, seats, blank);
    let mut hands = deal(&mut share, records, hands, sessions);
    at_work(rt, alloc, cluster, scene, &desk, &mut hands);
    gather(cluster, &mut share, hands, slots);
    let (door, left, stand) = desk.finish(share);
    let left = part(cluster, left, slots);
    (door, left, stand)
}

// The workers at the desk, each with what it has in hand.
fn at_work<
    D: Disk + Send,
    G: Gate + Drop + Sync,
    N: StoreName<D> + Send + Sync,
    B: Door<Link: Link<Rest: Send> + Send> + Send,
    M: DeskName<B::Link> + Send + Sync,
    R: Threads + Wait + Sync,
>(
    rt: &R,
    alloc: Global,
    cluster: &Cluster<D, G, N>,
    scene: &Scene<'_>,
    desk: &Desk<B, Seat<N>, M>,
    hands: &mut Vec<Hand<B::Link, N, M>>,
)
    requires scene { IsOfCluster N.cluster scene.now }
    requires some { 0 < length hands.old.items }
    requires ready { All (IsReady M.items) hands.old.items }
    ensures as_many { length hands.new.items ≡ length hands.old.items }
    ensures served { All (HasServed B.tells.each
        N.first N.capacity scene.now M.links M.items) hands.new.items }
{
    each_at_work(rt, alloc, cluster, scene, desk, hands.as_mut_slice());
}

fn each_at_work<
    D: Disk + Send,
    G: Gate + Drop + Sync,
    N: StoreName<D> + Send + Sync,
    B: Door<Link: Link<Rest: Send> + Send> + Send,
    M: DeskName<B::Link> + Send + Sync,
    R: Threads + Wait + Sync,
>(
    rt: &R,
    alloc: Global,
    cluster: &Cluster<D, G, N>,
    scene: &Scene<'_>,
    desk: &Desk<B, Seat<N>, M>,
    hands: &mut [Hand<B::Link, N, M>],
)
    requires scene { IsOfCluster N.cluster scene.now }
    requires some { 0 < length hands.old }
    requires ready { All (IsReady M.items) hands.old }
    ensures as_many { length hands.new ≡ length hands.old }
    ensures served { (worker : ℕ) (d : _) → worker < length hands.old → HasServed B.tells.each
        N.first N.capacity scene.now M.links M.items (slice_index_or hands.new worker d) }
{
    let workers = hands.len();
    thread::for_each_mut(
        rt,
        hands,
        workers,
        &|_, hand: &mut Hand<B::Link, N, M>|
            requires { IsOfCluster N.cluster scene.now × IsReady M.items hand.now }
            ensures { HasServed B.tells.each
                N.first N.capacity scene.entry.now M.links M.items hand.exit.now }
        { work(rt, alloc, cluster, scene, desk, hand) },
    );
}
