ghost use Rattle.std.specs.Prelude.{◌≡◌, length};
ghost use Rattle.dcr_link.specs.Replies.{IsOfCluster};
ghost use Rattle.dcr_serving.specs.Hands.{HasServed, IsReady};

use crate::record::{Record, serve_link};
use crate::seat::Seat;
use dcr_base::{Disk, Door, Gate, Link};
use dcr_cell::StoreName;
use dcr_cluster::Cluster;
use dcr_link::Scene;
use dcr_serve::{Desk, DeskName, DeskShare};
use dcr_turn::TurnName;
use std::alloc::Global;
use std::sync::Wait;
use std::sync::ledger::Ledger;

/// What a worker has at the desk: its share, and the sessions that it has served.
#[derive(Drop)]
pub(crate) struct Hand<L: Link, N: TurnName, M: Ledger> {
    pub(crate) share: DeskShare<M>,
    pub(crate) records: Vec<Record<L, N>>,
}

/// The work of one worker: it takes seats from the desk, each with a link, and serves one after the other.
pub(crate) fn work<D: Disk, G: Gate, N: StoreName<D>, B: Door, M: DeskName<B::Link>, R: Wait>(
    rt: &R,
    alloc: Global,
    cluster: &Cluster<D, G, N>,
    scene: &Scene<'_>,
    desk: &Desk<B, Seat<N>, M>,
    hand: &mut Hand<B::Link, N, M>,
)
    requires scene { IsOfCluster N.cluster scene.now }
    requires ready { IsReady M.items hand.old }
    ensures { HasServed B.tells.each
        N.first N.capacity scene.now M.links M.items hand.new }
{
    while let Some((seat, link)) = desk.take(rt, &mut hand.share) {
        let record = serve_link::<D, G, N, B, R>(rt, alloc, cluster, seat, scene, link);
        hand.records.push_reserved(record);
    }
}
